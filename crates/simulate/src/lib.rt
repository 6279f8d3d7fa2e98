// Clocks: stepping a netlist record, and running a text. The promises are in specs/: Clock, Step, Run, Theorems.
#![tactic(auto)]

mod checks;
mod circuit;
mod clocks;
mod lists;
mod plan;
mod running;
mod stepping;
mod touched;

use graph::EDGES;
pub use running::run;
pub use stepping::{step, step_in_place};

// "a machine record: one 32-bit word per edge, laid out as start values; words past the E-th are neither read nor changed."
// Kept: the C interface lends this record.
#[repr(C)]
#[derive(Clone, Copy)]
pub struct Machine {
    pub words: [u32; EDGES],
}

// What a step leaves: the machine after it, and how many outputs it put.
#[derive(Clone, Copy)]
pub struct Stepped {
    pub machine: Machine,
    pub outputs: usize,
}
