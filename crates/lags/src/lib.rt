// The lags of the least retiming, for any period. Internal: it asks of the caller (`requires`) what reading has made sure of.
#![tactic(auto)]

mod climb;
mod label;
mod order;
mod query;
mod rounds;
mod start;
mod times;

ghost use Rattle.std.specs.Prelude.{◌<◌};
ghost use Rattle.lags.specs.inner.Lags.{Sure, Leasts};
ghost use Rattle.lags.specs.inner.Wires.{Grounded};

use climb::Climbed;
use graph::{EdgesByNode, NODES};
pub use label::{BIAS, lag_of, up_of};
use netlist::Netlist;
use order::order_by;
use query::Query;
use times::working_delays;

// What the search goes by and no period plays a part in: the nodes in an order that can be evaluated, the edges by the node that they enter,
// and the working delays.
// Kept: the order, the delays, and the times found of them are whole columns, as labels are (src/climb.rt): no heap, and the netlist says how many nodes it has.
#[derive(Clone, Copy)]
pub struct Ground {
    pub order: [u16; NODES],
    pub ins: EdgesByNode,
    pub delay: [u32; NODES],
}

// Found once for all periods. What is required, `Sure`, is true of every netlist that reads (proofs/Laws, `read_sure`).
// Kept: `Sure` is a clause and no ghost field, as `Ready` in src/query.rt: it has a walk for each gate in it. A ghost field's fact has one proof at
// most; cut to that, no law could take the walks out of it again.
#[tactic(auto, using(crate::proofs::Wires::reads))]
pub fn ground_of(net: Netlist) -> Ground
    requires { Sure net }
    ensures { Grounded net result }
{
    Ground {
        order: order_by(&net, &net.count),
        ins: net.wires().entering(),
        delay: working_delays(&net),
    }
}

// The labels of the least retiming at a period, or none where no legal retiming meets it.
pub fn least_at(net: Netlist, ground: &Ground, period: u32) -> Option<[u32; NODES]>
    requires { Sure net × Grounded net ground.now × (period < 1000000) }
    ensures { Leasts net period result }
{
    let query = Query {
        net: &net,
        ground,
        period,
    };
    match query.climb() {
        Climbed::Settled(labels) => Some(labels),
        Climbed::Unmet => None,
        Climbed::Open => query.by_rounds(),
    }
}

// The same, where one period is asked for.
pub fn least(net: Netlist, period: u32) -> Option<[u32; NODES]>
    requires { Sure net × (period < 1000000) }
    ensures { Leasts net period result }
{
    least_at(net, &ground_of(net), period)
}
