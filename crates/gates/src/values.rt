// Values from signals. What a gate sees is listed as places in `sig`, where 0 or 1 stands.
// Kept: signals are bytes and no bools, since vectors and outputs are bytes; and that they are in place for a list of gates (`InputRows`, `Evaluable`, `AllBits`) is asked
// at each call, here and above, and stands in no type, since it is said of two things together, of which the signals are lent for writing.
// Required: signals in place for each gate, and its truth word; the plan of a netlist and the program of a search have them.
ghost use Rattle.std.specs.Prelude.{◌≡◌, List, map, length, ℕ, suc, ◌*◌, ◌^◌, ◌<◌, ◌≤◌};
ghost use Rattle.theory.specs.Gate.{gate};
ghost use Rattle.graph.specs.Columns.{at};
ghost use Rattle.gates.specs.inner.Gates.{part, word_from, Reckons, InputRows, evaluated, Evaluable, Truths};

use crate::table::IndexTable;

// A gate: its truth word, the table that this is read by, and what the gate sees.
#[derive(Clone, Copy)]
pub struct Gate<'a> {
    pub truth: u16,
    pub index: &'a IndexTable,
    pub sees: &'a [u16],
}

// Gates in columns: `node` lists those that are evaluated, in turn; of node v, `truth[v]` is the truth word, and what it sees is listed from `first[v]` up to
// `first[v + 1]` in `list`; `index` is the table that truth words are read by.
#[derive(Clone, Copy)]
pub struct GateList<'a> {
    pub node: &'a [u16],
    pub truth: &'a [u16],
    pub first: &'a [u16],
    pub list: &'a [u16],
    pub index: &'a IndexTable,
}

impl<'a> GateList<'a> {
    // Gate v.
    pub fn gate(self, v: usize) -> Gate<'a>
        requires { (v < length self.truth.now) × (suc v < length self.first.now) × (at self.first.now v ≤ at self.first.now (suc v)) × (at self.first.now (suc v) ≤ length self.list.now) }
        ensures truth { result.truth ≡ at self.entry.truth.now v }
        ensures sees { result.sees.now ≡ part self.entry.list.now (at self.entry.first.now v) (at self.entry.first.now (suc v)) }
    {
        Gate {
            truth: self.truth[v],
            index: self.index,
            sees: &self.list[self.first[v] as usize..self.first[v + 1] as usize],
        }
    }
}

// The most signals that a gate sees: so many are gathered behind the seed 0, and 3 behind the seed 32.
const MOST_SEEN: usize = 8;

// The signals that a gate sees in one word behind `seed`, the first one highest.
// The loop counts to the most that there can be and is left where the slice ends, so that the compiler lays out its turns one after the other: most gates
// see one to three signals, for which a loop over the slice takes more to begin than in its turns.
fn gather(sees: &[u16], seed: usize, sig: &[u8]) -> usize
    requires { InputRows (seed * 512) sees.now sig.now }
    ensures { (result ≡ word_from seed (map (at sig.now) sees.now)) × (result < suc seed * 2 ^ length sees.now) }
{
    let mut word = seed;
    for j in 0..MOST_SEEN {
        if j == sees.len() {
            return word;
        }
        word = word * 2 + sig[sees[j] as usize] as usize;
    }
    word
}

impl<'a> Gate<'a> {
    // Its value under these signals.
    pub fn value(self, sig: &[u8]) -> u8
        requires { InputRows self.truth self.sees.now sig.now }
        ensures { (result ≤ 1) × ((kind : ℕ) → Reckons kind (length self.entry.sees.now) self.entry.truth → result ≡ gate kind (map (at sig.now) self.entry.sees.now)) }
    {
        let word = gather(self.sees, (self.truth / 512) as usize, sig);
        let bit = self.index.bit_of(word);
        ((self.truth >> bit) % 2) as u8
    }
}

// The gates of the list, in turn: the value of gate v goes to base + v.
pub fn evaluate(gates: GateList<'_>, base: usize, sig: &mut [u8])
    requires { Evaluable gates.node.now gates.truth.now gates.first.now gates.list.now (length gates.node.now) base sig.old }
    ensures { (kind : List ℕ) → Truths kind gates.entry.node.now gates.entry.truth.now gates.entry.first.now (length gates.entry.node.now)
        → sig.new ≡ evaluated kind gates.entry.node.now gates.entry.first.now gates.entry.list.now base (length gates.entry.node.now) sig.old }
{
    for node in gates.node {
        let v = *node as usize;
        sig[base + v] = gates.gate(v).value(sig);
    }
}
