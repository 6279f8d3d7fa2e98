// Netlists: the record, refusals, reading and writing. The promises are in specs/: Read, Write, Walk, Theorems.
#![tactic(auto)]

use graph::{EDGES, Layer, NODES};

mod checking;
mod filled;
mod finding;
mod judging;
mod lines;
mod refusing;
mod rewriting;
mod walking;
mod wires;
mod writing;

pub use checking::check;
pub use lines::read;
pub use rewriting::rewrite;
pub use walking::walk;
pub use writing::{put_text, write, written_len};

// How many bytes the lines have.
const HEAD_LINE: usize = 17;

const NODE_LINE: usize = 7;

const EDGE_LINE: usize = 21;

// "A netlist is its head, its N nodes and its E edges; record rows past them are read by nothing, and reading makes them 0."
// Kept: the C interface lends this record, so its columns have a fixed length, and gate kinds are bytes in it.
#[repr(C)]
#[derive(Clone, Copy)]
pub struct Netlist {
    pub period: u16,
    pub derate: u8,
    pub nodes: u16,
    pub edges: u16,
    pub kind: [u8; NODES],
    pub delay: [u8; NODES],
    pub from: [u16; EDGES],
    pub to: [u16; EDGES],
    pub count: [u8; EDGES],
    pub start: [u32; EDGES],
}

// "A refusal names its place: a line, a node, an edge or the whole."
#[derive(Clone, Copy, Debug, PartialEq, Eq)]
pub enum Place {
    Whole,
    Line(u16),
    Node(u16),
    Edge(u16),
}

// The paper's refusals, 1 to 13 in its order, each with its place. specs/Answer has the paper's number and values for each case.
#[derive(Clone, Copy, Debug, PartialEq, Eq)]
pub enum Refusal {
    // 1, at a line: it is no line, or one too many.
    Line(u16),
    // 2, at line 1: a number of the head is out of range.
    Head,
    // 3, at a line: a node's gate kind or delay.
    NodeLine(u16),
    // 4, at a line: an edge's ends, count or start values.
    EdgeLine(u16),
    // 5, at a node: a wrong number of in-edges.
    FanIn(u16),
    // 6: a loop without a register.
    Loop,
    // 7, at a node: no input reaches it, or it reaches no output.
    Reach(u16),
    // 8: no legal retiming meets the period.
    Period,
    // 9, at an edge: a new count above 32.
    Count(u16),
    // 10: more than 24 chosen values.
    Choices,
    // 11: no choice carries the start.
    Start,
    // 12: a lent buffer is shorter than what is to be written.
    Room,
    // 13: the vectors are not what the netlist takes.
    Vectors,
}

// A walk of the lines of a text: how many nodes there are, and which of them are marked. The promise is in specs/Walk.
// Kept: the layer's marks are a whole column of fixed memory, since there is no heap; how many count stands beside it, as a layer does not hold its netlist.
#[derive(Clone, Copy)]
pub struct Walked {
    pub nodes: usize,
    pub layer: Layer,
}
