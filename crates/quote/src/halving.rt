// The smallest period that some legal retiming meets.
ghost use Rattle.std.specs.Prelude.{◌+◌, ◌≤◌, ◌<◌};
ghost use Rattle.lags.specs.inner.Lags.{Sure};
ghost use Rattle.quote.specs.inner.Quoted.{Tightens};

use crate::counts::largest;
use graph::NODES;
use lags::{ground_of, least_at};
use netlist::Netlist;

// "Every smaller period is refused 8, and where 65,535 would be refused 8 so is the quote." The longest period that a head can have.
const LONGEST_PERIOD: u32 = 65535;

// A period that is met while no smaller one is, and the labels of the least retiming there.
// Kept: the labels are a whole column with no length beside it, as lags gives them: there is no heap, and the netlist says how many nodes it has.
#[derive(Clone, Copy)]
pub struct Tight {
    pub period: u32,
    pub lab: [u32; NODES],
}

// A period between two others to try next: half way, or as long again and a step, where that is nearer. (Periods that are met are a few delays long, not 65,535.)
fn next_try(low: u32, high: u32, step: u32) -> u32
    requires { (low + 1 < high) × (high ≤ 65535) × (step < 1000) }
    ensures { (low < result) × (result < high) }
{
    let half = (low + high) / 2;
    let near = 2 * low + step;
    if near <= low {
        return half;
    }
    near.min(half)
}

// What meets a period meets every longer one, so the smallest is found by halving: no period up to `low` is met, `high` is. None, where no period is met.
pub fn tightest(net: Netlist) -> Option<Tight>
    requires { Sure net }
    ensures { Tightens net result }
{
    let ground = ground_of(net);
    let step = largest(&ground.delay[..net.nodes as usize]);
    let mut lab = least_at(net, &ground, LONGEST_PERIOD)?;
    let mut low = 0;
    let mut high = LONGEST_PERIOD;
    // Kept: no index is counted, the two ends approach each other.
    while low + 1 < high {
        let middle = next_try(low, high, step);
        match least_at(net, &ground, middle) {
            Some(tried) => {
                high = middle;
                lab = tried;
            }
            None => low = middle,
        }
    }
    Some(Tight { period: high, lab })
}
