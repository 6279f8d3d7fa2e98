// Algorithms over a graph in columns that the caller lends: fan-in, reach, loops, evaluation order.
// Internal: its functions ask of the caller (`requires`) what the netlist crate has checked.
#![tactic(auto)]

mod along;
mod both_ways;
mod by_node;
mod columns;
mod items;
mod layers;
mod order;
mod reach;
mod sort;
mod wires;

pub use along::{edges_along, places_of};
pub use by_node::{EdgesByNode, edges_by_node};
pub use columns::column;
pub use items::Items;
pub use layers::{Layer, reached, walk};
pub use order::{evaluation_order, looped};
pub use reach::{any_above, fan_ins};
pub use sort::sort_by;
pub use wires::Wires;

// How many nodes and edges a netlist has at most: the lengths of all columns.
// Kept, in all crates: an index, a bound or a number to reckon with is widened by `as usize`. `usize::from` is no plainer, and its result is a number of its own to the laws
// of `at net.from e`; where the proof goes through with it, some places have `usize::from`.
pub const NODES: usize = 512;

pub const EDGES: usize = 1024;
