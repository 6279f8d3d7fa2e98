// Rules 2 to 7 of a record, "as if its lines were read". No text is made: what is written has the form of lines, so that only their numbers can be wrong.
ghost use Rattle.std.specs.Prelude.{◌≡◌, ◌≤◌, ◌++◌, take, drop, replicate};
ghost use Rattle.netlist.specs.Answer.{says_of};
ghost use Rattle.netlist.specs.Net.{net_of};
ghost use Rattle.netlist.specs.Read.{Reads, kept};
ghost use Rattle.netlist.specs.Write.{text_of};
ghost use Rattle.netlist.specs.inner.Record.{cut};

use crate::finding::lowest;
use crate::judging::judge;
use crate::lines::FIRST_LINE;
use crate::{Netlist, Refusal};
use rules::{edge_fits, head_fits, node_fits};

// Rules 2 to 7 in turn: what reading the record's text says. An edge's line stands behind those of the nodes. The kinds are a copy, as no row of a record can be taken while one of its columns is lent.
pub fn verdict(net: Netlist) -> Result<(), Refusal>
    ensures { Reads (text_of net) (says_of result) (kept (says_of result) (cut net net.nodes net.edges)) }
{
    if !head_fits(net.period, net.derate, net.nodes, net.edges) {
        return Err(Refusal::Head);
    }
    let nodes = net.nodes as usize;
    if let Some(v) = lowest(nodes, |v| node_fits(net.kind[v], net.delay[v])) {
        return Err(Refusal::NodeLine((FIRST_LINE + v) as u16));
    }
    let kinds = net.kind;
    if let Some(e) = lowest(net.edges as usize, |e| {
        edge_fits(
            &kinds,
            net.nodes,
            net.from[e],
            net.to[e],
            net.count[e],
            net.start[e],
        )
    }) {
        return Err(Refusal::EdgeLine((FIRST_LINE + nodes + e) as u16));
    }
    judge(&net)
}

// The first n rows of a column, and `empty` in the others.
fn front<T: Copy, const N: usize>(column: [T; N], n: usize, empty: T) -> [T; N]
    requires { n ≤ N }
    ensures { result ≡ take n column ++ drop n (replicate N empty) }
{
    let mut rows = [empty; N];
    rows[..n].copy_from_slice(&column[..n]);
    rows
}

// The head, the nodes and the edges of a record, and 0 in all other rows.
fn cleaned(net: Netlist) -> Netlist
    requires { (net.nodes ≤ 512) × (net.edges ≤ 1024) }
    ensures { result ≡ cut net net.nodes net.edges }
{
    let nodes = net.nodes as usize;
    let edges = net.edges as usize;
    Netlist {
        period: net.period,
        derate: net.derate,
        nodes: net.nodes,
        edges: net.edges,
        kind: front(net.kind, nodes, 0),
        delay: front(net.delay, nodes, 0),
        from: front(net.from, edges, 0),
        to: front(net.to, edges, 0),
        count: front(net.count, edges, 0),
        start: front(net.start, edges, 0),
    }
}

// A record checked: the netlist that its lines give back, or a refusal (2 to 7).
pub fn check(net: Netlist) -> Result<Netlist, Refusal>
    ensures { Reads (text_of net) (says_of result) (net_of result) }
{
    verdict(net)?;
    Ok(cleaned(net))
}
