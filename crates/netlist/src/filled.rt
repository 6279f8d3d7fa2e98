// What the lines of a text have filled so far.
ghost use Rattle.std.specs.Prelude.{◌≤◌};

use crate::Netlist;

// The record, which has no more nodes and edges than rows, and the cursor past the lines.
#[derive(Clone, Copy)]
pub struct Filled {
    pub at: usize,
    pub net: Netlist,
    pub ghost nodes_fit: { net.nodes ≤ 512 },
    pub ghost edges_fit: { net.edges ≤ 1024 },
}
