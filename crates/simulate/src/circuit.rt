// A netlist that is known to keep the rules.
ghost use Rattle.std.specs.Prelude.{◌≡◌, ◌≤◌, length};
ghost use Rattle.simulate.specs.inner.Ran.{Steppable};

use netlist::Netlist;

// What reading and checking have made sure of: `run` and `step` make one, and nothing below them asks again.
#[derive(Clone, Copy)]
pub struct Circuit<'a> {
    pub net: &'a Netlist,
    pub ghost few_nodes: { net.now.nodes ≤ 512 },
    pub ghost few_edges: { net.now.edges ≤ 1024 },
    pub ghost kind_rows: { length net.now.kind ≡ 512 },
    pub ghost steppable: { Steppable net.now },
}
