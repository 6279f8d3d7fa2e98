// The labels to start from: 16,384 less the fewest registers between a pin and the node. No legal retiming has a lower one.
// What is required, `Sure`, is true of every netlist that reads (proofs/Laws, `read_sure`).
ghost use Rattle.std.specs.Prelude.{◌≡◌, ℕ, ◌≤◌, ◌<◌};
ghost use Rattle.graph.specs.Columns.{at};
ghost use Rattle.lags.specs.inner.Lags.{Sure};
ghost use Rattle.lags.specs.inner.Starts.{start_of, Far, Shortened, Measured, FirstLabels};

use crate::label::BIAS;
use graph::{NODES, column};
use netlist::Netlist;
use rules::is_pin;

// The distances to start from: 0 at a pin, elsewhere more than any.
fn first_distances(net: &Netlist) -> [u32; NODES]
    requires { net.now.nodes ≤ 512 }
    ensures { (v : ℕ) → v < net.now.nodes → at result v ≡ start_of (at net.now.kind v) }
{
    column(
        net.nodes as usize,
        0,
        |v| if is_pin(net.kind[v]) { 0 } else { BIAS },
    )
}

// One sweep over all edges, in place: an edge that offers a shorter way shortens. Whether a distance has changed.
#[tactic(auto, using(crate::proofs::Wires::reads))]
fn shorten(net: &Netlist, far: &mut [u32; NODES]) -> bool
    requires { Sure net.now × Far net.now far.old }
    ensures { Shortened net.now far.old far.new result }
{
    let mut changed = false;
    for e in 0..net.edges as usize {
        let u = net.from[e] as usize;
        let v = net.to[e] as usize;
        let d = far[u] + u32::from(net.count[e]);
        if d < far[v] {
            far[v] = d;
            changed = true;
        }
    }
    changed
}

// The fewest registers between a pin and each node.
#[tactic(auto, using(crate::proofs::Wires::reads))]
fn distances(net: &Netlist) -> [u32; NODES]
    requires { Sure net.now }
    ensures { Measured net.now result }
{
    let mut far = first_distances(net);
    // Kept: no index is counted here. It ends, as a sweep that shortens makes the sum of the distances fall.
    while shorten(net, &mut far) {}
    far
}

// The labels to start from.
#[tactic(auto, using(crate::proofs::Wires::reads))]
pub fn first_labels(net: &Netlist) -> [u32; NODES]
    requires { Sure net.now }
    ensures { FirstLabels net.now result }
{
    let far = distances(net);
    column(net.nodes as usize, 0, |v| BIAS - far[v])
}
