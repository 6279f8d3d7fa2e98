// The original on zeros, clock by clock or 32 clocks of a node in a row, in a ring of 64 rows: node v's value at clock t stands at t % 64 · 512 + v. Behind the
// rows, at 32,768, stand 0 and 1.
// So no register is moved: an edge with w registers shows what its source had w clocks before, or a start value.
// Nodes whose lag is below 0 are followed, each at least up to the clock before minus its lag and at most 31 clocks further: the last 32 values before that
// clock, which are all that a new start value or a node that is followed longer can ask for, are then still in the ring.
// Private to the crate: `moved` comes here with the labels of a legal retiming of a netlist that passed the rules.
ghost use Rattle.std.specs.Prelude.{ℕ, ◌+◌, ◌<◌, ◌≤◌, length};
ghost use Rattle.graph.specs.Columns.{at};
ghost use Rattle.simulate.specs.inner.Ran.{Steppable};
ghost use Rattle.starts.specs.inner.Ring.{Followed, NothingYet};

use crate::BIAS;
use crate::ahead::take;
use crate::nodes::{asked, refresh};
use crate::shown::{ONE, SLOTS};
use crate::wiring::{Wiring, truths_of};
use gates::{GateList, IndexTable};
use graph::{EDGES, evaluation_order};
use moves::Move;

// The ring before clock 0.
fn empty() -> [u8; SLOTS]
    ensures { NothingYet result }
{
    let mut ring = [0u8; SLOTS];
    ring[ONE] = 1;
    ring
}

// So many clocks are asked for: the largest of the lags turned round.
fn clocks_asked(lab: &[u32]) -> usize
    ensures { (result ≤ 16384) × ((v : ℕ) → v < length lab.now → 16384 ≤ result + at lab.now v) }
{
    lab.iter()
        .map(|label| BIAS.saturating_sub(*label as usize))
        .max()
        .unwrap_or(0)
}

// The ring after so many clocks, which are all that are asked for.
// Kept, here, below, in src/wiring.rt and in retime `moved_by`: that the netlist can be stepped is a clause and no fact of `Move`: its counts, and a quote, are made of less, and a type may not
// ask more of those who make one than was asked before.
fn follow(from: Move<'_>, clocks: usize) -> [u8; SLOTS]
    requires { Steppable from.net.now × (clocks ≤ 16384) × ((v : ℕ) → v < from.net.now.nodes → 16384 ≤ clocks + at from.lab.now v) }
    ensures { Followed from.entry.net.now from.entry.lab.now result }
{
    let net = from.net;
    let wires = net.wires();
    let wiring = Wiring {
        net,
        ins: wires.entering(),
    };
    let truth = truths_of(net, &wiring.ins);
    let index = IndexTable::new();
    let order = evaluation_order(wires, &net.count);
    let mut list = asked(&order[..net.nodes as usize], from.lab, 0);
    let mut slots = [0u16; EDGES];
    let mut ring = empty();
    let mut s = 0;
    // Kept: no index is counted, `stride` says how many clocks are taken.
    while s < clocks {
        let nodes = list.as_slice();
        wiring.turn(nodes, s, &mut slots);
        let gates = GateList {
            node: nodes,
            truth: &truth,
            first: &wiring.ins.begin,
            list: &slots,
            index: &index,
        };
        let k = wiring.stride(nodes, s);
        take(gates, s, k, &mut ring);
        s += k;
        refresh(&mut list, from.lab, s);
    }
    ring
}

// The ring after all clocks that are asked for.
pub fn ring_of(from: Move<'_>) -> [u8; SLOTS]
    requires { Steppable from.net.now }
    ensures { Followed from.entry.net.now from.entry.lab.now result }
{
    let clocks = clocks_asked(&from.lab[..from.net.nodes as usize]);
    // Where no lag is below 0, nothing has to be made ready.
    if clocks == 0 {
        return empty();
    }
    follow(from, clocks)
}
