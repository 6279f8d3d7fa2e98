// Writing: the lines of a record, one after the other at a cursor.
ghost use Rattle.std.specs.Prelude.{[], ◌∷◌, ◌++◌, ◌≡◌, ◌+◌, ◌≤◌, ◌<◌, length, take};
ghost use Rattle.std.proofs.lemmas.List.Edits.{sets};
ghost use Rattle.frame.specs.Frame.{bytes_of};
ghost use Rattle.graph.specs.Columns.{at};
ghost use Rattle.netlist.specs.Answer.{says};
ghost use Rattle.netlist.specs.Net.{plain};
ghost use Rattle.netlist.specs.Write.{node_line, edge_line, joined, text_of, text_in, Writes};

use crate::checking::verdict;
use crate::{EDGE_LINE, HEAD_LINE, NODE_LINE, Netlist, Refusal};
use frame::put_line;
use graph::{EDGES, NODES};

// The bytes of the head line.
// Kept: four numbers and not the record: that the derate fits a byte is known of a parameter; of a field of a lent record: tried, and not proved.
fn head_bytes(period: u16, derate: u8, nodes: u16, edges: u16) -> [u8; 8]
    ensures { result ≡ (1 ∷ []) ++ bytes_of 2 period ++ bytes_of 1 derate ++ bytes_of 2 nodes ++ bytes_of 2 edges }
{
    let p = period.to_be_bytes();
    let n = nodes.to_be_bytes();
    let e = edges.to_be_bytes();
    [1, p[0], p[1], derate, n[0], n[1], e[0], e[1]]
}

// The bytes of the line of edge e.
fn edge_bytes(net: &Netlist, e: usize) -> [u8; 10]
    requires { e < 1024 }
    ensures { result ≡ (3 ∷ []) ++ bytes_of 2 (at net.now.from e) ++ bytes_of 2 (at net.now.to e) ++ bytes_of 1 (at net.now.count e) ++ bytes_of 4 (at net.now.start e) }
{
    let u = net.from[e].to_be_bytes();
    let v = net.to[e].to_be_bytes();
    let s = net.start[e].to_be_bytes();
    let count = net.count[e];
    [3, u[0], u[1], v[0], v[1], count, s[0], s[1], s[2], s[3]]
}

// The node lines from the cursor `at0`; the cursor past them.
// Kept: a cursor, as in `read_nodes`.
// Kept: tried as one function with `put_edges`, with a closure of type `Fn(usize) -> [u8; N]` for the bytes, but a bound that names a const parameter gets no proof.
fn put_nodes(net: &Netlist, out: &mut [u8], at0: usize) -> usize
    requires { (net.now.nodes ≤ 512) × (at0 + length (joined (node_line net.now) net.now.nodes) ≤ length out.old) }
    ensures { (out.new ≡ sets out.old at0 (joined (node_line net.now) net.now.nodes)) × (result ≡ at0 + length (joined (node_line net.now) net.now.nodes)) }
{
    let mut at = at0;
    for i in 0..net.nodes as usize {
        put_line(out, at, &[2, net.kind[i], net.delay[i]]);
        at += NODE_LINE;
    }
    at
}

// The edge lines from the cursor `at0`; the cursor past them.
// Kept: a cursor, as in `put_nodes`.
fn put_edges(net: &Netlist, out: &mut [u8], at0: usize) -> usize
    requires { (net.now.edges ≤ 1024) × (at0 + length (joined (edge_line net.now) net.now.edges) ≤ length out.old) }
    ensures { (out.new ≡ sets out.old at0 (joined (edge_line net.now) net.now.edges)) × (result ≡ at0 + length (joined (edge_line net.now) net.now.edges)) }
{
    let mut at = at0;
    for e in 0..net.edges as usize {
        put_line(out, at, &edge_bytes(net, e));
        at += EDGE_LINE;
    }
    at
}

// How many bytes the text of a record has.
fn text_len(net: Netlist) -> usize
    ensures { result ≡ length (text_of net) }
{
    HEAD_LINE + NODE_LINE * (net.nodes as usize) + EDGE_LINE * (net.edges as usize)
}

// How many bytes the text has that retiming writes for a record: it depends neither on the lags nor on the start values.
// Kept: two promises about one number: a request may make the retimed text shorter.
pub fn written_len(net: Netlist) -> usize
    ensures { result ≡ length (text_of (plain net)) }
{
    text_len(net)
}

const MOST_NODES: u16 = NODES as u16;

const MOST_EDGES: u16 = EDGES as u16;

// The text at the front of `out`, where the record has its rows and there is room; how many bytes that took, 0 where it left `out`.
// Kept: 0 is no number for none here: it is how many bytes were put.
pub fn put_text(net: Netlist, out: &mut [u8]) -> usize
    ensures out_after { out.new ≡ sets out.old 0 (text_in net (length out.old)) }
    ensures value { result ≡ length (text_in net (length out.old)) }
{
    if MOST_NODES < net.nodes || MOST_EDGES < net.edges || out.len() < text_len(net) {
        return 0;
    }
    put_line(
        out,
        0,
        &head_bytes(net.period, net.derate, net.nodes, net.edges),
    );
    let at = put_nodes(&net, out, HEAD_LINE);
    put_edges(&net, out, at)
}

// A netlist written to the front of `out`: how many bytes, or a refusal (2 to 7, 12), which leaves `out`.
pub fn write(net: Netlist, out: &mut [u8]) -> Result<usize, Refusal>
    ensures { Writes net out.old (says result) out.new }
{
    verdict(net)?;
    let n = text_len(net);
    if out.len() < n {
        return Err(Refusal::Room);
    }
    put_text(net, out);
    Ok(n)
}
