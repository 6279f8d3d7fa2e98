// 32 clocks of a gate in a row, before the next gate is looked at. Each edge between two gates of the list leads on in it or has 32 registers: what a gate sees
// is of a clock before the 32, or of a gate passed already, which has them all.
// Private to the crate: `follow` comes here from clock 32 on, when no start value shows any more.
ghost use Rattle.std.specs.Prelude.{◌≡◌, IsTrue, false, List, ℕ, ◌+◌, ◌<◌, ◌≤◌, length, All};
ghost use Rattle.graph.specs.Columns.{at};
ghost use Rattle.gates.specs.inner.Gates.{AllBits, Reckons, InputRows, Evaluable, Truths};
ghost use Rattle.starts.specs.inner.Ring.{row, further};
ghost use Rattle.starts.specs.inner.Ahead.{ahead, all_ahead, Leads, LeadsOn, Strides, Taken};

use crate::shown::{CLOCKS, SLOTS};
use crate::wiring::Wiring;
use gates::{Gate, GateList, evaluate};
use graph::{NODES, places_of};

// So many clocks are taken in a row, and after so many the list is looked through again.
pub const SPELL: usize = 32;

// A row and all of them, as the numbers of slots are held.
const ROW: u16 = NODES as u16;

const ROWS: u16 = (CLOCKS * NODES) as u16;

// A row further, round the ring.
pub fn advance(slots: &mut [u16])
    ensures { (k : ℕ) → k < length slots.old → at slots.new k ≡ further (at slots.old k) }
{
    for slot in slots.iter_mut() {
        *slot = (*slot % ROWS + ROW) % ROWS;
    }
}

// 32 clocks of a gate of N inputs, which sees these slots in the first of them: its first value goes to `place`, each other a row further.
fn clocks<const N: usize>(gate: Gate<'_>, place: usize, ring: &mut [u8; SLOTS])
    requires inputs { (length gate.sees.now ≡ N) × (N ≤ 8) }
    requires ready { InputRows gate.truth gate.sees.now ring.old × AllBits ring.old × (place + 15872 < 32770) }
    ensures { AllBits ring.new × ((kind : ℕ) → Reckons kind (length gate.entry.sees.now) gate.entry.truth → ring.new ≡ ahead kind gate.entry.sees.now place 32 ring.old) }
{
    let mut own = [0u16; N];
    own.copy_from_slice(gate.sees);
    for j in 0..SPELL {
        ring[place + j * NODES] = Gate { sees: &own, ..gate }.value(ring);
        advance(&mut own);
    }
}

// The same for any gate: it has 8 inputs at most. Where their number stands in the code, no loop over the inputs is left in the program, and a clock takes less
// than half the time.
fn gate_ahead(gate: Gate<'_>, place: usize, ring: &mut [u8; SLOTS])
    requires { InputRows gate.truth gate.sees.now ring.old × AllBits ring.old × (place + 15872 < 32770) }
    ensures { AllBits ring.new × ((kind : ℕ) → Reckons kind (length gate.entry.sees.now) gate.entry.truth → ring.new ≡ ahead kind gate.entry.sees.now place 32 ring.old) }
{
    // Kept: the numbers of inputs one by one, since a const argument is written and not computed.
    match gate.sees.len() {
        0 => clocks::<0>(gate, place, ring),
        1 => clocks::<1>(gate, place, ring),
        2 => clocks::<2>(gate, place, ring),
        3 => clocks::<3>(gate, place, ring),
        4 => clocks::<4>(gate, place, ring),
        5 => clocks::<5>(gate, place, ring),
        6 => clocks::<6>(gate, place, ring),
        7 => clocks::<7>(gate, place, ring),
        _ => clocks::<8>(gate, place, ring),
    }
}

// 32 clocks of the gates of the list, in turn: the first value of gate v goes to base + v.
// Kept: the walk is that of `gates::evaluate`, two lines, with another step: handed in as a closure the step alone is as long as this.
fn evaluate_ahead(gates: GateList<'_>, base: usize, ring: &mut [u8; SLOTS])
    requires { Evaluable gates.node.now gates.truth.now gates.first.now gates.list.now (length gates.node.now) (base + 15872) ring.old }
    ensures { (kind : List ℕ) → Truths kind gates.entry.node.now gates.entry.truth.now gates.entry.first.now (length gates.entry.node.now)
        → ring.new ≡ all_ahead kind gates.entry.node.now gates.entry.first.now gates.entry.list.now base (length gates.entry.node.now) ring.old }
{
    for node in gates.node {
        let v = *node as usize;
        gate_ahead(gates.gate(v), base + v, ring);
    }
}

// One clock of the list from clock s on, or 32.
// Kept: a number and no enum, as in `stride`.
pub fn take(gates: GateList<'_>, s: usize, clocks: usize, ring: &mut [u8; SLOTS])
    requires one { Evaluable gates.node.now gates.truth.now gates.first.now gates.list.now (length gates.node.now) (row s) ring.old }
    requires many { 1 < clocks → Evaluable gates.node.now gates.truth.now gates.first.now gates.list.now (length gates.node.now) (row s + 15872) ring.old }
    ensures { (kind : List ℕ) → Truths kind gates.entry.node.now gates.entry.truth.now gates.entry.first.now (length gates.entry.node.now)
        → Taken kind gates.entry.node.now gates.entry.first.now gates.entry.list.now (row s) clocks ring.old ring.new }
{
    let base = s % CLOCKS * NODES;
    if 1 < clocks {
        evaluate_ahead(gates, base, ring);
    } else {
        evaluate(gates, base, ring);
    }
}

impl<'a> Wiring<'a> {
    // Whether edge e leads back in a list with these places, or stays where it is, with fewer than 32 registers. Where one of its ends stands nowhere, it does not.
    #[tactic(auto, using(crate::proofs::Wired::from_low, crate::proofs::Wired::to_low))]
    fn leads_back(&self, place: &[Option<u16>; NODES], e: usize) -> bool
        requires { e < self.now.net.now.edges }
        ensures { result ≡ false → Leads self.now.net.now place.now e }
    {
        let net = self.net;
        match (place[net.from[e] as usize], place[net.to[e] as usize]) {
            (Some(x), Some(y)) => usize::from(net.count[e]) < SPELL && y <= x,
            _ => false,
        }
    }

    // Whether each edge between two nodes of the list leads on in it or has 32 registers.
    fn leads_on(&self, place: &[Option<u16>; NODES]) -> bool
        ensures { IsTrue result → LeadsOn self.now.net.now place.now }
    {
        !(0..self.net.edges as usize).any(|e| self.leads_back(place, e))
    }

    // How many clocks are taken at clock s: 32 from there on, or 1.
    // Kept: a number and no enum: it is how many clocks are added to s, so an enum would be turned back into it at once.
    pub fn stride(&self, list: &[u16], s: usize) -> usize
        requires { (length list.now ≤ 512) × All (λ v. v < self.now.net.now.nodes) list.now }
        ensures { Strides self.now.net.now list.now s result }
    {
        if SPELL <= s && s % SPELL == 0 && self.leads_on(&places_of(list)) {
            SPELL
        } else {
            1
        }
    }
}
