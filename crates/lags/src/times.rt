// Working delays, and the arrival times under labels: one pass along an order in which each node stands after the sources of its empty edges.
// Private to the crate: `least` hands on a netlist that reads, and its edges by node.
ghost use Rattle.std.specs.Prelude.{◌≡◌, suc, ◌+◌, min, ◌≤◌, ◌<◌, length};
ghost use Rattle.netlist.specs.Net.{working};
ghost use Rattle.lags.specs.inner.Wires.{Delayed, Ready};
ghost use Rattle.lags.specs.inner.Rounds.{Low, LabelOrder, Readable, LatestTime, Arrived};

use crate::query::Query;
use graph::{NODES, column};
use netlist::Netlist;

// "delay times derate, divided by 100, rounded to the nearest whole", "a half to the even neighbour": before an even whole part a half falls short by one hundredth.
fn working(delay: u8, derate: u8) -> u32
    ensures { (result ≡ working delay derate) × (result < 1000) }
{
    let x = u32::from(delay) * u32::from(derate);
    (x + 49 + x / 100 % 2) / 100
}

// The working delays.
pub fn working_delays(net: &Netlist) -> [u32; NODES]
    requires { net.now.nodes ≤ 512 }
    ensures { Delayed net.now.delay net.now.derate net.now.nodes result }
{
    column(net.nodes as usize, 0, |v| working(net.delay[v], net.derate))
}

// A time and a delay, where all above the period is the period and one.
fn later(t: u32, d: u32, period: u32) -> u32
    requires { (t ≤ suc period) × (d < 1000) × (period < 1000000) }
    ensures { result ≡ min (suc period) (t + d) }
{
    (t + d).min(period + 1)
}

// The latest time of a source, of the edges `ins` that are empty under the labels. `here` is the label of the node that they enter.
fn latest(net: &Netlist, ins: &[u16], lab: &[u32; NODES], time: &[u32; NODES], here: u32) -> u32
    requires { Readable net.now ins.now × (here < 32768) }
    ensures { LatestTime net.now ins.now lab.now time.now here (length ins.now) result }
{
    let mut best = 0;
    for e in ins {
        let e = *e as usize;
        let u = net.from[e] as usize;
        if lab[u] == u32::from(net.count[e]) + here {
            best = time[u].max(best);
        }
    }
    best
}

impl<'a> Query<'a> {
    // The arrival times under the labels: where a node stands in the order, all that its time depends on is known.
    #[tactic(auto, using(crate::proofs::Wires::reads))]
    pub fn arrivals(&self, order: &[u16; NODES], lab: &[u32; NODES]) -> [u32; NODES]
        requires basis { Ready self.now }
        requires low { Low self.now.net.now.nodes lab.now × LabelOrder self.now.net.now lab.now order.now }
        ensures { Arrived self.now.net.now self.now.period lab.now result }
    {
        let mut time = [0u32; NODES];
        for v in &order[..self.net.nodes as usize] {
            let v = *v as usize;
            let best = latest(self.net, self.entering(v), lab, &time, lab[v]);
            time[v] = later(best, self.ground.delay[v], self.period);
        }
        time
    }
}
