// Wires with the registers on them, and the edges by the node that they enter and by the node that they leave.
ghost use Rattle.std.specs.Prelude.{◌≡◌, ◌<◌, ◌≤◌, length, replicate};
ghost use Rattle.graph.specs.inner.Sort.{Sorts, EdgesOf};

use crate::{EdgesByNode, Wires};

// count: how many registers each edge has. Found once for all that goes through the graph edge by edge.
#[derive(Clone, Copy)]
pub struct BothWays<'a> {
    pub wires: Wires<'a>,
    pub count: &'a [u8],
    pub ins: EdgesByNode,
    pub outs: EdgesByNode,
    ghost counted: { wires.edges ≤ length count.now },
    ghost entering: { Sorts wires.to.now wires.edges wires.nodes (replicate 1024 0) ins.list ins.begin },
    ghost leaving: { Sorts wires.from.now wires.edges wires.nodes (replicate 1024 0) outs.list outs.begin },
}

impl<'a> BothWays<'a> {
    pub fn new(wires: Wires<'a>, count: &'a [u8]) -> BothWays<'a>
        requires { wires.edges ≤ length count.now }
        ensures wires { result.wires ≡ wires.entry }
        ensures count { result.count.now ≡ count.now }
    {
        BothWays {
            wires,
            count,
            ins: wires.entering(),
            outs: wires.leaving(),
        }
    }

    // The edges that enter node v.
    pub fn into(&self, v: usize) -> &[u16]
        requires { v < self.now.wires.nodes }
        ensures { EdgesOf self.now.wires.to.now self.now.wires.edges v result.now }
    {
        self.ins.of(v)
    }

    // The edges that leave node u.
    pub fn out_of(&self, u: usize) -> &[u16]
        requires { u < self.now.wires.nodes }
        ensures { EdgesOf self.now.wires.from.now self.now.wires.edges u result.now }
    {
        self.outs.of(u)
    }
}
