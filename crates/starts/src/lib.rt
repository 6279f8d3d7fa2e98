// The start values of the moved netlist. Internal: asks of the caller the labels of the least retiming (`Moving`).
#![tactic(auto)]

mod ahead;
mod nodes;
mod ring;
mod shown;
mod wiring;
mod words;

pub use words::moved;

// A label is this and the lag.
const BIAS: usize = lags::BIAS as usize;
