// The counts of a moved netlist, and how many of its start values are chosen. Internal: asks of the caller the labels of a legal retiming.
#![tactic(auto)]

mod bits;
mod counts;

pub use bits::put_bit;
pub use counts::{Move, bytes_of, chosen_on, too_wide};

// "9 (lowest edge): a new count above 32."
// Kept: this limit is of a new count; the 32 of rules `edge_fits` is of a line.
pub const MOST_REGISTERS: u32 = 32;

// "10: more than 24 chosen values."
pub const MOST_CHOSEN: u32 = 24;
