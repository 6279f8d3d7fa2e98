// Registers on shared rails: what a chip pays for on which branches of one node share registers. The promises are in specs/: Rails, Theorems.
#![tactic(auto)]

ghost use Rattle.std.specs.Prelude.{◌≡◌, [], ◌∷◌, ◌++◌, ◌-◌, ◌^◌, ◌/◌, ◌<◌, ◌≤◌, length, drop, replicate};
ghost use Rattle.theory.specs.Move.{digit};
ghost use Rattle.graph.specs.Columns.{at};
ghost use Rattle.graph.specs.inner.Sort.{Sorts};
ghost use Rattle.netlist.specs.Answer.{says};
ghost use Rattle.netlist.specs.Net.{graph_of, regs_of};
ghost use Rattle.netlist.specs.Write.{joined};
ghost use Rattle.netlist.specs.Theorems.{Fit};
ghost use Rattle.rails.specs.Rails.{paid_on, Rails};
ghost use Rattle.rails.specs.inner.Shared.{Further, Counted};

use graph::{EdgesByNode, NODES};
use netlist::{Netlist, Refusal};

// The n values of a word of w that are nearest to the feeding node, as a number: the nearest is bit w − 1.
fn nearest(word: u32, w: u32, n: u32) -> u32
    requires { (0 < n) × (n ≤ w) × (w ≤ 32) }
    ensures { result ≡ word / 2 ^ (w - n) }
{
    word >> (w - n)
}

// Two edges from one node, a word of w values and one of x: how far out the first shares, where it is known to share the nearest m.
fn further(a: u32, w: u32, b: u32, x: u32, m: u32) -> u32
    requires { (m ≤ w) × (w ≤ 32) × (x ≤ 32) × (a < 2 ^ w) × (b < 2 ^ x) }
    ensures { Further (digit w a) w (digit x b) x m result }
{
    let most = w.min(x);
    if most <= m {
        return m;
    }
    // Not a step at a time: the exclusive or has as many bits as there are values from the first that differs.
    let differ = 32 - (nearest(a, w, most) ^ nearest(b, x, most)).leading_zeros();
    m.max(most - differ)
}

// The total, and each node's count.
// Kept: no heap, so the counts are a column of fixed size; `Items` holds u16.
#[derive(Clone, Copy)]
struct Bill {
    total: u32,
    rails: [u32; NODES],
}

// What a chip is made from: a netlist whose lines are right, and its edges by the node that they leave.
#[derive(Clone, Copy)]
struct Chip<'a> {
    net: &'a Netlist,
    outs: &'a EdgesByNode,
    ghost fit: { Fit net.now },
    ghost sorted: { Sorts net.now.from net.now.edges net.now.nodes (replicate 1024 0) outs.now.list outs.now.begin },
}

impl<'a> Chip<'a> {
    // How many registers of the edge e are paid for: those that no lower edge shares.
    #[tactic(auto, using(crate::proofs::Few::few_edges))]
    fn paid(self, e: usize) -> u32
        requires { e < self.net.now.edges }
        ensures { (result ≡ paid_on (graph_of self.entry.net.now) (regs_of self.entry.net.now) e) × (result ≤ 32) }
    {
        let net = self.net;
        let from = net.from[e];
        let count = u32::from(net.count[e]);
        let start = net.start[e];
        let mut shared = 0;
        for &lower in self.outs.of(usize::from(from)) {
            let i = usize::from(lower);
            // They stand in rising order: from here on none is lower.
            if e <= i {
                break;
            }
            shared = further(start, count, net.start[i], u32::from(net.count[i]), shared);
            if shared == count {
                return 0;
            }
        }
        count - shared
    }

    // Each edge's registers that are paid for, at the node that it leaves.
    #[tactic(auto, using(crate::proofs::Few::few_edges))]
    fn bill(self) -> Bill
        ensures { Counted self.entry.net.now self.entry.net.now.edges result.total result.rails }
    {
        let net = self.net;
        let mut rails = [0; NODES];
        let mut total = 0;
        for e in 0..usize::from(net.edges) {
            let n = self.paid(e);
            rails[usize::from(net.from[e])] += n;
            total += n;
        }
        Bill { total, rails }
    }
}

// Each node's count of shared registers into the table, in node order; the answer is the total, or a refusal (reading's, 12), which leaves the table.
pub fn rails(text: &[u8], table: &mut [u32]) -> Result<usize, Refusal>
    ensures { Rails text.now table.old (says result) table.new }
{
    let net = netlist::read(text)?;
    let nodes = usize::from(net.nodes);
    if table.len() < nodes {
        return Err(Refusal::Room);
    }
    let outs = net.wires().leaving();
    let bill = Chip {
        net: &net,
        outs: &outs,
    }
    .bill();
    table[..nodes].copy_from_slice(&bill.rails[..nodes]);
    Ok(bill.total as usize)
}
