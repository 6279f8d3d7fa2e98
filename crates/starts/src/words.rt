// The start values of the moved netlist: those that are chosen, and those that the original shows with all inputs at 0.
// Retiming comes here with the labels of the least retiming.
ghost use Rattle.std.specs.Prelude.{◌≡◌, ℕ, ◌+◌, ◌^◌, ◌≤◌, ◌<◌, length};
ghost use Rattle.graph.specs.Columns.{at};
ghost use Rattle.gates.specs.inner.Gates.{AllBits};
ghost use Rattle.moves.specs.inner.Labels.{lags_of, chosen_at};
ghost use Rattle.moves.specs.inner.Moving.{Moving};
ghost use Rattle.moves.specs.inner.Chosen.{EdgeWords, ShortWords};
ghost use Rattle.moves.specs.Moved.{word_of, moved_net};
ghost use Rattle.starts.specs.inner.Starts.{shown_slot};

use crate::BIAS;
use crate::ring::ring_of;
use crate::shown::{SLOTS, Shown};
use graph::column;
use lags::up_of;
use moves::{Move, bytes_of, chosen_on, put_bit};
use netlist::Netlist;

// What an edge shows, its chosen start values and how many they are, its new count, and the label of the node that it enters.
#[derive(Clone, Copy)]
struct Filling {
    edge: Shown,
    word: u32,
    chosen: u32,
    count: u32,
    label: u32,
    ghost short: { word < 2 ^ chosen },
    ghost rises: { chosen ≤ count },
    ghost few: { count ≤ 32 },
    ghost shown: { chosen < count → label ≤ chosen + 16384 },
}

impl Filling {
    // Of edge e.
    fn of(from: Move<'_>, counts: &[u32], words: &[u32], e: usize) -> Filling
        requires { Moving from.net.now from.lab.now counts.now × ShortWords from.net.now (lags_of from.lab.now) words.now × (e < from.net.now.edges) }
        ensures edge { (result.edge.from ≡ at from.entry.net.now.from e) × (result.edge.registers ≡ at from.entry.net.now.count e) × (result.edge.start ≡ at from.entry.net.now.start e) }
        ensures chosen { (result.word ≡ at words.now e) × (result.chosen ≡ chosen_at from.entry.net.now from.entry.lab.now e) }
        ensures count { (result.count ≡ at counts.now e) × (result.label ≡ at from.entry.lab.now (at from.entry.net.now.to e)) }
    {
        let label = from.lab[from.net.to[e] as usize];
        Filling {
            edge: Shown::of(from.net, e),
            word: words[e],
            chosen: chosen_on(counts[e], up_of(label)),
            count: counts[e],
            label,
        }
    }

    // The start values: those in the word, the chosen ones, and then at each clock t below the count what the original shows at clock t − r(v).
    fn filled(self, ring: &[u8; SLOTS]) -> u32
        requires { AllBits ring.now }
        ensures { (f : ℕ → ℕ) → self.word ≡ word_of f self.chosen
            → ((t : ℕ) → self.chosen ≤ t → t < self.count → at ring.now (shown_slot self.edge.from self.edge.registers self.edge.start self.label t) ≡ f t) → result ≡ word_of f self.count }
    {
        let mut new = self.word;
        for t in self.chosen..self.count {
            let c = self.edge.slot(t as usize + BIAS - self.label as usize);
            new = put_bit(new, t, u32::from(ring[c]));
        }
        new
    }
}

// "Moved by lags and a choice, a netlist keeps its head, its nodes and the ends of its edges, and each edge gets its new count and new start values."
// The choice comes as words: of each edge its chosen values, bit t for clock t.
// Kept: `Moving` is a clause and no ghost field, as it holds `Sure`, which has a walk for each gate in it; so the counts stand beside the move, here and in `of`;
// the counts and words stand whole, as columns do in graph `Wires`.
pub fn moved(from: Move<'_>, counts: &[u32], words: &[u32]) -> Netlist
    requires { Moving from.net.now from.lab.now counts.now × ShortWords from.net.now (lags_of from.lab.now) words.now }
    ensures { (c : ℕ) → EdgeWords from.entry.net.now (lags_of from.entry.lab.now) c words.now
        → result ≡ moved_net from.entry.net.now (lags_of from.entry.lab.now) c }
{
    let net = from.net;
    let edges = net.edges as usize;
    let ring = ring_of(from);
    Netlist {
        count: bytes_of(&counts[..edges]),
        start: column(edges, 0, |e| {
            Filling::of(from, counts, words, e).filled(&ring)
        }),
        ..*net
    }
}
