// A netlist that keeps the rules, with its edges by the node that they enter.
// Private to the crate: `follow` has it of a netlist that passed the rules.
ghost use Rattle.std.specs.Prelude.{◌≡◌, ℕ, suc, ◌-◌, ◌<◌, ◌≤◌, length, replicate};
ghost use Rattle.graph.specs.Columns.{at};
ghost use Rattle.graph.specs.inner.Sort.{Sorts};
ghost use Rattle.gates.specs.inner.Gates.{Reckons};
ghost use Rattle.simulate.specs.inner.Ran.{Steppable};

use gates::truths;
use graph::{EdgesByNode, NODES};
use netlist::Netlist;

// `ins` is found once for all clocks.
// Kept: the facts of `simulate::Circuit` once more: it is private to its crate, and handed on it would be one field deeper in every law of `w.net`, no plainer.
#[derive(Clone, Copy)]
pub struct Wiring<'a> {
    pub net: &'a Netlist,
    pub ins: EdgesByNode,
    pub ghost few_nodes: { net.now.nodes ≤ 512 },
    pub ghost few_edges: { net.now.edges ≤ 1024 },
    pub ghost steppable: { Steppable net.now },
    pub ghost entering: { Sorts net.now.to net.now.edges net.now.nodes (replicate 1024 0) ins.list ins.begin },
}

// The truth words of the nodes, of which `ins` has the edges that enter them.
#[tactic(auto, using(crate::proofs::Wired::low_nodes))]
pub fn truths_of(net: &Netlist, ins: &EdgesByNode) -> [u16; NODES]
    requires { Steppable net.now × Sorts net.now.to net.now.edges net.now.nodes (replicate 1024 0) ins.now.list ins.now.begin }
    ensures { (v : ℕ) → v < net.now.nodes → Reckons (at net.now.kind v) (at ins.now.begin (suc v) - at ins.now.begin v) (at result v) }
{
    truths(&net.kind[..net.nodes as usize], &ins.begin)
}
