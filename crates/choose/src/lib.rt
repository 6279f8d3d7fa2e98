// The choice of start values. Internal: asks of the caller the labels of the least retiming (`Choosing`).
#![tactic(auto)]

mod cells;
mod choosing;
mod dues;
mod task;
mod words;

pub use choosing::choose;
use graph::{EDGES, NODES};
use moves::MOST_CHOSEN;

// No lag is above the number of chosen values.
const LAGS: usize = MOST_CHOSEN as usize;

// A cell for each node and each clock below its lag; where the operands of each begin, and where those of the last end.
const CELLS: usize = NODES * LAGS;

const FIRSTS: usize = CELLS + 1;

// An edge is an operand of the cells of one node; what is due of it is at clocks below the lag of another.
const OPERANDS: usize = EDGES * LAGS;

const DUES: usize = EDGES * LAGS;

// The code of node v at clock t is 32 v + t.
const STRIDE: usize = 32;

const CODES: usize = NODES * STRIDE;

// The dues of an edge stand in five runs of clocks, a row for each; and where the last row ends.
const ROW_ENDS: usize = EDGES * 5 + 1;
