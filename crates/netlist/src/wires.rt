// A record's edges as wires, for what goes over them.
// Required: that its lines are right, which reading and checking make sure of.
ghost use Rattle.netlist.specs.Theorems.{Fit};
ghost use Rattle.netlist.specs.inner.Wiring.{WiresOf};

use crate::Netlist;
use graph::Wires;

impl Netlist {
    // The nodes that each edge leaves and enters.
    pub fn wires(&self) -> Wires<'_>
        requires { Fit self.now }
        ensures { WiresOf self.now result }
    {
        Wires {
            nodes: self.nodes as usize,
            edges: self.edges as usize,
            from: &self.from,
            to: &self.to,
        }
    }
}
