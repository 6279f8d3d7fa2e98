// Rules 5, 6 and 7, of a netlist whose lines are right.
// Private to the crate: `read` comes here once the lines are right.
ghost use Rattle.netlist.specs.Answer.{says_of};
ghost use Rattle.netlist.specs.Read.{Judged};
ghost use Rattle.netlist.specs.Theorems.{Fit};

use crate::finding::lowest;
use crate::{Netlist, Refusal};
use rules::{Kind, fan_fits};

// Rules 5, 6 and 7 in turn: the lowest node with a wrong number of in-edges; a loop; the lowest node that no input reaches, or that reaches no output.
pub fn judge(net: &Netlist) -> Result<(), Refusal>
    requires { Fit net.now }
    ensures { Judged net.now (says_of result) }
{
    let nodes = net.nodes as usize;
    let wires = net.wires();
    let ins = graph::fan_ins(wires);
    if let Some(v) = lowest(nodes, |v| fan_fits(net.kind[v], ins[v])) {
        return Err(Refusal::FanIn(v as u16));
    }
    if graph::looped(wires, &net.count) {
        return Err(Refusal::Loop);
    }
    let fed = graph::reached(wires, &net.kind, Kind::Input as u8);
    let used = graph::reached(wires.reversed(), &net.kind, Kind::Output as u8);
    if let Some(v) = lowest(nodes, |v| fed[v] && used[v]) {
        return Err(Refusal::Reach(v as u16));
    }
    Ok(())
}
