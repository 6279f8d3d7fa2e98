// The counts of the moved netlist, and how many of its start values are chosen.
// Retiming comes here with the labels of the least retiming.
ghost use Rattle.std.specs.Prelude.{◌≡◌, ℕ, ◌+◌, ◌≤◌, ◌<◌, min, length};
ghost use Rattle.graph.specs.Columns.{at};
ghost use Rattle.moves.specs.inner.Labels.{Labelled, Counts, Wide, Bases};
ghost use Rattle.moves.specs.inner.Columns.{Filled, none};

use crate::MOST_REGISTERS;
use graph::{EDGES, column};
use lags::up_of;
use netlist::Netlist;

// The new count of an edge, by the labels of its ends.
fn new_count(count: u8, from: u32, to: u32) -> u32
    requires { (from ≤ count + to) × (to < 32768) }
    ensures { result + from ≡ count + to }
{
    u32::from(count) + to - from
}

// A netlist and the labels of a legal retiming of it.
#[derive(Clone, Copy)]
pub struct Move<'a> {
    pub net: &'a Netlist,
    pub lab: &'a [u32],
    pub ghost labelled: { Labelled net.now lab.now },
}

impl<'a> Move<'a> {
    // "each edge's new count w + r(v) − r(u)".
    pub fn new_counts(self) -> [u32; EDGES]
        ensures { Counts self.entry.net.now self.entry.lab.now result }
    {
        let net = self.net;
        let lab = self.lab;
        column(net.edges as usize, 0, |e| {
            new_count(
                net.count[e],
                lab[net.from[e] as usize],
                lab[net.to[e] as usize],
            )
        })
    }

    // How many values are chosen on the edges before each edge, and at the end on all.
    // Kept: the counts stand whole beside the move, as columns do in graph `Wires`: they are made of it, and whether they are too large is asked in between.
    #[tactic(auto, using(crate::proofs::Labels::low_edge, crate::proofs::Labels::from_node, crate::proofs::Labels::to_node))]
    pub fn chosen(self, counts: &[u32]) -> [u32; EDGES + 1]
        requires { Counts self.net.now self.lab.now counts.now × (self.net.now.edges ≤ length counts.now) }
        ensures { Bases self.entry.net.now self.entry.lab.now result }
    {
        let net = self.net;
        let mut base = [0u32; EDGES + 1];
        let mut total = 0;
        for e in 0..net.edges as usize {
            let v = net.to[e] as usize;
            total += chosen_on(counts[e], up_of(self.lab[v]));
            base[e + 1] = total;
        }
        base
    }
}

// The lowest edge with a count above 32. `counts` has all edges and no more.
pub fn too_wide(counts: &[u32]) -> Option<usize>
    ensures { Wide counts.now (length counts.now) result }
{
    counts.iter().position(|count| MOST_REGISTERS < *count)
}

// How many values are chosen on an edge: at the clocks below its new count and below the lag of the node that it enters.
pub fn chosen_on(count: u32, lag: u32) -> u32
    ensures { result ≡ min count lag }
{
    count.min(lag)
}

// The new counts as bytes, of all edges and no more.
pub fn bytes_of(counts: &[u32]) -> [u8; EDGES]
    requires { (length counts.now ≤ 1024) × ((e : ℕ) → e < length counts.now → at counts.now e ≤ 32) }
    ensures { Filled (at counts.now) none (length counts.now) result }
{
    column(counts.len(), 0, |e| counts[e] as u8)
}
