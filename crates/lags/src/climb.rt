// Labels and arrival times together, from below: each node takes the highest label that an edge asks of it, and with it the latest time; where its own delay would
// bring it past the period, it takes one label more and begins anew. No step passes a legal retiming that meets the period, and where nothing changes any more
// the labels are one. Along the evaluation order a few sweeps are enough, but on a loop that is too slow they climb on and on: then the rounds decide.
// Private to the crate: `least` hands on a netlist that reads, and its edges by node.
ghost use Rattle.std.specs.Prelude.{◌≡◌, true, false, ℕ, ◌≤◌, ◌<◌, length};
ghost use Rattle.graph.specs.Columns.{at};
ghost use Rattle.lags.specs.inner.Wires.{Ready};
ghost use Rattle.lags.specs.inner.Climb.{label_of, floor_of, Askable, AskedMark, Takes, Marked, SweepLeaves, Climbs};

use crate::label::BIAS;
use crate::query::Query;
use graph::{NODES, column};
use netlist::Netlist;
use rules::is_pin;

// A mark is a label and a time, label · 2^20 + time: the higher label counts first, then the later time. This is one label.
// Kept: one number and no struct of two: in it `max` is the higher mark, and one subtraction takes labels off and ends at 0 where there are not so many.
const LABEL: u64 = 1 << 20;

// Label 16,384, which is lag 0.
const PIN: u64 = BIAS as u64 * LABEL;

// Label 16,385.
const ABOVE: u64 = PIN + LABEL;

// Label 32,768: a lag has 16 bits.
const TOP: u64 = 2 * PIN;

// So many sweeps at most. Most texts settle in a few. A loop that is just fast enough was seen to need about 200; but a round costs little more than a sweep,
// so it is then left to the rounds, and a loop that is too slow has lost little.
const SWEEPS: u32 = 64;

// What a sweep comes to. Late: a pin is asked for a label above 16,384. High: a gate for one above 32,767.
#[derive(Clone, Copy)]
pub enum Swept {
    Still,
    Moved,
    Late,
    High,
}

// What the climb comes to. Settled: the labels of the least retiming. Unmet: no legal retiming meets the period. Open: the sweeps came to no end.
// Kept: labels, here and wherever they go, are a whole column with no length beside it: there is no heap, and the netlist says how many nodes it has.
#[derive(Clone, Copy)]
pub enum Climbed {
    Settled([u32; NODES]),
    Unmet,
    Open,
}

// The mark that a node has by its kind alone.
// Kept: the number as the record has it, as in rules `is_pin`.
#[tactic(auto, unfolding(crate::specs::inner::Climb::floor_of))]
fn floor_of(kind: u8) -> u64
    ensures { result ≡ floor_of kind }
{
    if is_pin(kind) { PIN } else { 0 }
}

// The highest mark that is asked for: the floor, or by an edge of `ins` that of its source, less a label for each register.
fn asked(net: &Netlist, ins: &[u16], mark: &[u64; NODES], floor: u64) -> u64
    requires { Askable net.now ins.now mark.now × (floor < TOP) }
    ensures { AskedMark net.now ins.now mark.now floor (length ins.now) result }
{
    let mut best = floor;
    for e in ins {
        let e = *e as usize;
        let u = net.from[e] as usize;
        let w = u64::from(net.count[e]) * LABEL;
        best = best.max(mark[u].saturating_sub(w));
    }
    best
}

// The mark of a node with this delay, after what is asked of it.
fn after(asked: u64, delay: u32, period: u32) -> u64
    requires { (asked < TOP) × (delay < 1000) × (period < 1000000) }
    ensures { Takes period delay asked result }
{
    let d = u64::from(delay);
    if asked % LABEL + d <= u64::from(period) {
        return asked + d;
    }
    (asked / LABEL + 1) * LABEL + d
}

// The labels of the marks.
fn labels_of(marks: &[u64]) -> [u32; NODES]
    requires { (length marks.now ≤ 512) × ((v : ℕ) → v < length marks.now → at marks.now v < TOP) }
    ensures { (v : ℕ) → v < length marks.now → at result v ≡ label_of (at marks.now v) }
{
    column(marks.len(), 0, |v| (marks[v] / LABEL) as u32)
}

impl<'a> Query<'a> {
    // One sweep over the nodes in their order, in place.
    #[tactic(auto, using(crate::proofs::Wires::reads))]
    fn sweep(&self, mark: &mut [u64; NODES]) -> Swept
        requires { Ready self.now × Marked self.now.net.now self.now.period mark.old }
        ensures { SweepLeaves self.now.net.now self.now.period mark.new result }
    {
        let net = self.net;
        let ground = self.ground;
        let mut changed = false;
        for v in &ground.order[..net.nodes as usize] {
            let v = *v as usize;
            let kind = net.kind[v];
            let best = asked(net, self.entering(v), mark, floor_of(kind));
            let next = after(best, ground.delay[v], self.period);
            if next != mark[v] {
                if is_pin(kind) && ABOVE <= next {
                    return Swept::Late;
                }
                if TOP <= next {
                    return Swept::High;
                }
                mark[v] = next;
                changed = true;
            }
        }
        if changed { Swept::Moved } else { Swept::Still }
    }

    // Sweeps from the lowest marks on, until nothing changes.
    #[tactic(auto, using(crate::proofs::Wires::reads))]
    pub fn climb(&self) -> Climbed
        requires { Ready self.now }
        ensures { Climbs self.now.net.now self.now.period result }
    {
        let nodes = self.net.nodes as usize;
        if self.any_late(&self.ground.delay) {
            return Climbed::Unmet;
        }
        let mut mark = [0u64; NODES];
        for _sweep in 0..SWEEPS {
            match self.sweep(&mut mark) {
                Swept::Still => return Climbed::Settled(labels_of(&mark[..nodes])),
                Swept::Moved => {}
                Swept::Late => return Climbed::Unmet,
                Swept::High => return Climbed::Open,
            }
        }
        Climbed::Open
    }
}
