// The order that the rounds go by: each node stands after the source of every edge that enters it and is empty under the labels.
// A round keeps it, once the late nodes are put first: proofs/Orders, `order_kept`.
// Private to the crate: `least` hands on a netlist that reads.
ghost use Rattle.std.specs.Prelude.{◌≡◌, List, ◌++◌, ℕ, ◌+◌, ◌<◌, ◌≤◌, length, take};
ghost use Rattle.theory.specs.Walk.{Loop};
ghost use Rattle.graph.specs.Columns.{at, column_graph};
ghost use Rattle.graph.specs.inner.Sort.{Ordered};
ghost use Rattle.lags.specs.inner.Lags.{Sure};
ghost use Rattle.lags.specs.inner.Rounds.{Low, HeldAt, Held, LabelOrder, Nodes, Parted};

use crate::query::Query;
use graph::{EDGES, Items, NODES, column, evaluation_order};
use netlist::Netlist;

// 0 for an edge that is empty under the labels of its ends, else 1.
fn registered(start: u32, count: u8, end: u32) -> u8
    requires { end < 32768 }
    ensures { HeldAt start count end result }
{
    u8::from(start != u32::from(count) + end)
}

// So for each edge.
#[tactic(auto, using(crate::proofs::Wires::reads))]
fn registers_under(net: &Netlist, lab: &[u32; NODES]) -> [u8; EDGES]
    requires { Sure net.now × Low net.now.nodes lab.now }
    ensures { Held net.now lab.now result }
{
    column(net.edges as usize, 0, |e| {
        let u = net.from[e] as usize;
        let v = net.to[e] as usize;
        registered(lab[u], net.count[e], lab[v])
    })
}

// An evaluation order of the nodes, where `count` has the registers of the edges.
#[tactic(auto, using(crate::proofs::Wires::reads))]
pub fn order_by(net: &Netlist, count: &[u8; EDGES]) -> [u16; NODES]
    requires sure { Sure net.now }
    requires no_loop { (kind : List ℕ) → ¬ Loop (column_graph net.now.nodes net.now.edges kind net.now.from net.now.to) (at count.now) }
    ensures { Ordered net.now.nodes net.now.edges net.now.from net.now.to count.now result }
{
    evaluation_order(net.wires(), count)
}

// An order under the labels. There is one: the registers of a loop are as many under the labels as they were.
pub fn order_under(net: &Netlist, lab: &[u32; NODES]) -> [u16; NODES]
    requires { Sure net.now × Low net.now.nodes lab.now }
    ensures { LabelOrder net.now lab.now result }
{
    order_by(net, &registers_under(net, lab))
}

// The nodes of two lists, one list behind the other.
fn joined(first: &[u16], second: &[u16]) -> [u16; NODES]
    requires { length first.now + length second.now ≤ 512 }
    ensures { take (length first.now + length second.now) result ≡ first.now ++ second.now }
{
    let n = first.len();
    let mut both = [0; NODES];
    both[..n].copy_from_slice(first);
    both[n..n + second.len()].copy_from_slice(second);
    both
}

impl<'a> Query<'a> {
    // The late nodes first, in their order, then the others, in theirs.
    pub fn parted(&self, order: &[u16; NODES], time: &[u32; NODES]) -> [u16; NODES]
        requires { Nodes self.now.net.now.nodes order.now }
        ensures { Parted order.now time.now self.now.period self.now.net.now.nodes result }
    {
        let mut late = Items::<NODES>::new();
        let mut rest = Items::<NODES>::new();
        for v in &order[..self.net.nodes as usize] {
            if self.period < time[*v as usize] {
                late.push(*v);
            } else {
                rest.push(*v);
            }
        }
        joined(late.as_slice(), rest.as_slice())
    }
}
