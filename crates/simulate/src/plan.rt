// The evaluation plan, made once per netlist.
// Private to the crate: `clocks_of` has the circuit that it is made of, and the signals that it runs on.
ghost use Rattle.std.specs.Prelude.{◌≡◌, cond, List, ℕ, ◌+◌, ◌<◌, ◌≤◌, eqb, length};
ghost use Rattle.graph.specs.Columns.{at};
ghost use Rattle.graph.specs.inner.Lists.{Filtered};
ghost use Rattle.gates.specs.inner.Gates.{evaluated, Evaluable, Truths};
ghost use Rattle.simulate.specs.inner.Plan.{signal, NoInput, Planned};

use crate::circuit::Circuit;
use gates::{GateList, IndexTable, evaluate, truths};
use graph::{EDGES, Items, NODES, column, evaluation_order};
use rules::Kind;

// What the edges show from their registers comes after the values of the nodes.
const SHOWN: u16 = NODES as u16;

// node: the nodes that are no inputs, in evaluation order; first: where the signals that node v sees begin, those of node v + 1 after them;
// sees: the signals, in rising order of the edges; truth: its truth word; index: the table that this is read by.
#[derive(Drop)]
pub struct Plan {
    pub node: Items<NODES>,
    pub first: [u16; NODES + 1],
    pub sees: [u16; EDGES],
    pub truth: [u16; NODES],
    pub index: IndexTable,
}

impl Plan {
    // One value for each node that is no input.
    pub fn evaluate(&self, sig: &mut [u8])
        requires { Evaluable self.now.node self.now.truth self.now.first self.now.sees (length self.now.node) 0 sig.old }
        ensures { (kind : List ℕ) → Truths kind self.now.node self.now.truth self.now.first (length self.now.node)
            → sig.new ≡ evaluated kind self.now.node self.now.first self.now.sees 0 (length self.now.node) sig.old }
    {
        let gates = GateList {
            node: self.node.as_slice(),
            truth: &self.truth,
            first: &self.first,
            list: &self.sees,
            index: &self.index,
        };
        evaluate(gates, 0, sig);
    }
}

// The nodes of an order that are no inputs, in the same order.
// Kept: a kind is compared by its number, as the record that C lends has it: to make a `Kind` of it is a test more, which a netlist that reads does not need.
fn gates_of(order: &[u16], circuit: Circuit<'_>) -> Items<NODES>
    requires nodes_in_bounds { circuit.net.now.nodes ≤ length order.now }
    requires by_index { (p : ℕ) → p < circuit.net.now.nodes → at order.now p < circuit.net.now.nodes }
    ensures { Filtered (NoInput circuit.entry.net.now.kind) order.now circuit.entry.net.now.nodes result (length result) }
{
    let net = circuit.net;
    Items::picked(net.nodes, |place| {
        let v = order[place as usize];
        (net.kind[v as usize] != Kind::Input as u8).then_some(v)
    })
}

// Where the signal of edge e stands: at its source, or with its own register.
fn signal_of(source: u16, count: u8, e: u16) -> u16
    requires { e < 1024 }
    ensures { result ≡ cond (eqb count 0) source (512 + e) }
{
    if count == 0 { source } else { SHOWN + e }
}

// The signals of the edges, in the order in which these stand in `ins`.
// Kept, here and in `gates_of`: the columns stand whole beside the netlist, as in graph `Wires`.
fn signals_of(circuit: Circuit<'_>, ins: &[u16]) -> [u16; EDGES]
    requires { (circuit.net.now.edges ≤ length ins.now) × ((k : ℕ) → k < circuit.net.now.edges → at ins.now k < circuit.net.now.edges) }
    ensures { (k : ℕ) → k < circuit.entry.net.now.edges → at result k ≡ signal circuit.entry.net.now (at ins.now k) }
{
    let net = circuit.net;
    column(net.edges as usize, 0, |k| {
        let e = ins[k];
        signal_of(net.from[e as usize], net.count[e as usize], e)
    })
}

// The plan of a netlist.
pub fn plan_of(circuit: Circuit<'_>) -> Plan
    ensures { Planned circuit.entry.net.now result }
{
    let net = circuit.net;
    let wires = net.wires();
    let order = evaluation_order(wires, &net.count);
    let ins = wires.entering();
    Plan {
        node: gates_of(&order, circuit),
        first: ins.begin,
        sees: signals_of(circuit, &ins.list),
        truth: truths(&net.kind[..wires.nodes], &ins.begin),
        index: IndexTable::new(),
    }
}
