// A quote before the order: the smallest period that is not refused 8, and what the least retiming at that period comes to. The promises are in specs/: Quote, Theorems.
#![tactic(auto)]

mod counts;
mod halving;

ghost use Rattle.lags.specs.inner.Lags.{Sure};
ghost use Rattle.quote.specs.Quote.{QuoteOf};
ghost use Rattle.quote.specs.inner.Quoted.{QuoteOfNet};

use counts::{largest, total};
use halving::tightest;
use moves::Move;
use netlist::{Netlist, Refusal};

// The smallest period that is not refused 8, and of the least retiming there the register total, the largest count on an edge and the number of values to choose.
#[derive(Clone, Copy, Debug, PartialEq, Eq)]
pub struct Quoted {
    pub period: u16,
    pub registers: u32,
    pub largest: u32,
    pub number: u32,
}

// A netlist that was read: 8, or the numbers of the least retiming at the smallest period that is met.
#[tactic(auto, using(crate::proofs::Figures::few_edges))]
fn quote_net(net: Netlist) -> Result<Quoted, Refusal>
    requires { Sure net }
    ensures { QuoteOfNet net result }
{
    let edges = net.edges as usize;
    let Some(tight) = tightest(net) else {
        return Err(Refusal::Period);
    };
    let by = Move {
        net: &net,
        lab: &tight.lab,
    };
    let counts = by.new_counts();
    let base = by.chosen(&counts);
    let moved = &counts[..edges];
    Ok(Quoted {
        period: tight.period as u16,
        registers: total(moved),
        largest: largest(moved),
        number: base[edges],
    })
}

// A text's quote: the smallest period that is not refused 8, and the numbers of the least retiming there; or a refusal (1 to 7, 8).
pub fn quote(text: &[u8]) -> Result<Quoted, Refusal>
    ensures { QuoteOf text.now result }
{
    quote_net(netlist::read(text)?)
}
