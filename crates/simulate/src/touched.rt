// What a clock touches, listed once per run.
ghost use Rattle.rules.specs.Kinds.{kind_number};
ghost use Rattle.simulate.specs.inner.Lists.{marked, Listed, Touched};

use crate::circuit::Circuit;
use crate::lists::Lists;
use graph::{EDGES, Items, NODES};
use rules::Kind;

// The nodes of this gate kind.
// Kept: its number is compared, as in src/plan.rt.
fn list_kind(circuit: Circuit<'_>, kind: Kind) -> Items<NODES>
    ensures { Listed circuit.entry.net.now.kind (kind_number kind) circuit.entry.net.now.nodes result }
{
    let number = u8::from(kind);
    let net = circuit.net;
    Items::picked(net.nodes, |v| (net.kind[v as usize] == number).then_some(v))
}

// The edges with a register.
fn list_registers(circuit: Circuit<'_>) -> Items<EDGES>
    ensures { Listed (marked circuit.entry.net.now.count) 1 circuit.entry.net.now.edges result }
{
    let net = circuit.net;
    Items::picked(net.edges, |e| (net.count[e as usize] != 0).then_some(e))
}

// The lists of a netlist.
pub fn lists_of(circuit: Circuit<'_>) -> Lists
    ensures { Touched circuit.entry.net.now result }
{
    Lists {
        inputs: list_kind(circuit, Kind::Input),
        outputs: list_kind(circuit, Kind::Output),
        registers: list_registers(circuit),
    }
}
