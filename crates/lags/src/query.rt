// What the climb and the rounds go by: a netlist that reads, what no period plays a part in, and the period that is asked for.
// Private to the crate: `least` hands on a netlist that reads, and its edges by node.
ghost use Rattle.std.specs.Prelude.{◌≤◌, ◌<◌};

use crate::Ground;
use graph::{NODES, any_above};
use netlist::Netlist;

// Kept: that this is so, `Ready`, is a clause and no ghost field: it has walks and places in it, and a ghost field's fact has one proof at most.
#[derive(Clone, Copy)]
pub struct Query<'a> {
    pub net: &'a Netlist,
    pub ground: &'a Ground,
    pub period: u32,
    pub ghost few_nodes: { net.now.nodes ≤ 512 },
}

impl<'a> Query<'a> {
    ghost use Rattle.graph.specs.Layers.{Told};
    ghost use Rattle.graph.specs.inner.Marks.{Above};
    ghost use Rattle.lags.specs.inner.Wires.{Ready, Entering};

    // The edges that enter node v.
    #[tactic(auto, using(crate::proofs::Wires::reads))]
    pub fn entering(&self, v: usize) -> &[u16]
        requires { Ready self.now × (v < self.now.net.now.nodes) }
        ensures { Entering self.now.net.now v result.now }
    {
        self.ground.ins.of(v)
    }

    // Whether a node's time is above the period.
    pub fn any_late(&self, time: &[u32; NODES]) -> bool
        ensures { Told result (Above time.now self.now.net.now.nodes self.now.period) }
    {
        any_above(&time[..self.net.nodes as usize], self.period)
    }
}
