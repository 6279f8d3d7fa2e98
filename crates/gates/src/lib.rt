// A gate's value, found in one place: "inputs gathered in one word; ones counted decide AND, OR, XOR and inverses".
// Stepping, running, the search for start values and the values of the original all come here.
// Internal: asks of the caller (`requires`) gates that keep the rules and signals that are in place.
#![tactic(auto)]

mod table;
mod truth;
mod values;

pub use table::IndexTable;
pub use truth::truths;
pub use values::{Gate, GateList, evaluate};
