// Reading: the lines in turn, each at a cursor, filling the record row by row; then rules 5, 6 and 7.
// `read` asks for nothing. The others are private to the crate: they are handed a table of digits and a record within the limits.
ghost use Rattle.std.specs.Prelude.{◌≡◌, drop};
ghost use Rattle.netlist.specs.Answer.{says_of};
ghost use Rattle.netlist.specs.inner.Stages.{Goes, Lined};
ghost use Rattle.netlist.specs.Net.{with_head, net_of};
ghost use Rattle.netlist.specs.Read.{line_of_node, line_of_edge, nothing_more, edges_from, nodes_from, lines_of, Reads};

use crate::filled::Filled;
use crate::judging::judge;
use crate::{EDGE_LINE, HEAD_LINE, NODE_LINE, Netlist, Refusal};
use frame::DigitTable;
use graph::{EDGES, NODES};
use rules::{edge_fits, head_fits, node_fits};

// The number of the line behind the head (specs/Read, `first_line`).
pub const FIRST_LINE: usize = 2;

// A record with this head and no rows.
// Kept: four numbers and no struct, as in rules `head_fits`.
pub fn with_head(period: u16, derate: u8, nodes: u16, edges: u16) -> Netlist
    ensures { result ≡ with_head period derate nodes edges }
{
    Netlist {
        period,
        derate,
        nodes,
        edges,
        kind: [0; NODES],
        delay: [0; NODES],
        from: [0; EDGES],
        to: [0; EDGES],
        count: [0; EDGES],
        start: [0; EDGES],
    }
}

// The head line.
fn read_head(table: &DigitTable, text: &[u8]) -> Result<Filled, Refusal>
    ensures { Goes result (lines_of text.now) (λ f. nodes_from f.net.nodes 0 (line_of_node f.net 0) (drop f.at text.now) f.net) }
{
    let b: [u8; 7] = table.line(text, 0, 1).ok_or(Refusal::Line(1))?;
    let period = u16::from_be_bytes([b[0], b[1]]);
    let derate = b[2];
    let nodes = u16::from_be_bytes([b[3], b[4]]);
    let edges = u16::from_be_bytes([b[5], b[6]]);
    if !head_fits(period, derate, nodes, edges) {
        return Err(Refusal::Head);
    }
    Ok(Filled {
        at: HEAD_LINE,
        net: with_head(period, derate, nodes, edges),
    })
}

// The node lines behind what is filled.
// Kept: one function with `read_edges` would take the size of a line, the test and the store as closures over the record that it fills, more than these two loops are.
fn read_nodes(table: &DigitTable, text: &[u8], headed: Filled) -> Result<Filled, Refusal>
    ensures { Goes result (nodes_from headed.net.nodes 0 (line_of_node headed.net 0) (drop headed.at text.now) headed.net) (λ f. edges_from f.net.edges 0 (line_of_edge f.net 0) (drop f.at text.now) f.net) }
{
    let mut net = headed.net;
    // Kept: a cursor: specs/Read goes line by line, and no offset is computed in closed form (docs/DECISIONS.md: how code takes a line).
    let mut at = headed.at;
    for v in 0..net.nodes as usize {
        let line = (FIRST_LINE + v) as u16;
        let [kind, delay] = table.line::<2>(text, at, 2).ok_or(Refusal::Line(line))?;
        if !node_fits(kind, delay) {
            return Err(Refusal::NodeLine(line));
        }
        net.kind[v] = kind;
        net.delay[v] = delay;
        at += NODE_LINE;
    }
    Ok(Filled { at, net })
}

// The edge lines behind what is filled.
fn read_edges(table: &DigitTable, text: &[u8], noded: Filled) -> Result<Filled, Refusal>
    ensures { Goes result (edges_from noded.net.edges 0 (line_of_edge noded.net 0) (drop noded.at text.now) noded.net) (λ f. nothing_more (drop f.at text.now) (line_of_edge f.net f.net.edges) f.net) }
{
    let mut net = noded.net;
    let nodes = net.nodes;
    // Kept: a cursor, as in `read_nodes`.
    let mut at = noded.at;
    for e in 0..net.edges as usize {
        let line = (FIRST_LINE + (nodes as usize) + e) as u16;
        let b: [u8; 9] = table.line(text, at, 3).ok_or(Refusal::Line(line))?;
        let from = u16::from_be_bytes([b[0], b[1]]);
        let to = u16::from_be_bytes([b[2], b[3]]);
        let count = b[4];
        let start = u32::from_be_bytes([b[5], b[6], b[7], b[8]]);
        if !edge_fits(&net.kind, nodes, from, to, count, start) {
            return Err(Refusal::EdgeLine(line));
        }
        net.from[e] = from;
        net.to[e] = to;
        net.count[e] = count;
        net.start[e] = start;
        at += EDGE_LINE;
    }
    Ok(Filled { at, net })
}

// Rules 1 to 4: all lines, and nothing after them.
// Kept, for all stages: the table and the text as two. The contracts are of the text alone, and a struct of both would be made here and taken apart at each line.
pub fn read_lines(table: &DigitTable, text: &[u8]) -> Result<Netlist, Refusal>
    ensures { Lined text.now result }
{
    let headed = read_head(table, text)?;
    let noded = read_nodes(table, text, headed)?;
    let edged = read_edges(table, text, noded)?;
    let net = edged.net;
    if edged.at < text.len() {
        let line = FIRST_LINE + (net.nodes as usize) + (net.edges as usize);
        return Err(Refusal::Line(line as u16));
    }
    Ok(net)
}

// A text read: the netlist, or a refusal (1 to 7).
pub fn read(text: &[u8]) -> Result<Netlist, Refusal>
    ensures { Reads text.now (says_of result) (net_of result) }
{
    let net = read_lines(&DigitTable::new(), text)?;
    judge(&net)?;
    Ok(net)
}
