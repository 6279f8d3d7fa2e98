// What the programs print: of a text read and written again, of a run or of marks, of a text retimed, of a quote, of a text's rails, and of a refusal. The promises are in specs/: Shown, Printed, Listed, Quoted, Shared.
#![tactic(auto)]

mod fronts;
mod quoting;
mod refusals;
mod rereading;
mod retiming;
mod running;
mod sharing;

use graph::NODES;
pub use quoting::put_quote;
pub use refusals::{put_refusal, put_refused};
pub use rereading::reread;
pub use retiming::listing;
pub use running::{put_bits, put_run};
pub use sharing::put_rails;

// "a text of up to 32,768 bytes (more decides nothing)".
pub const LONGEST: usize = 32768;

// A lag's line: five bytes as digits, and the line feed.
const LAG_LINE: usize = 11;

// Room for such a text and the lines of the lags of 512 nodes.
pub const ROOM: usize = LONGEST + LAG_LINE * NODES;

// What is printed: the first `len` of these bytes.
// Kept: no heap, and a buffer that the value owns is an array of fixed size; `Items` holds u16.
#[derive(Clone, Copy)]
pub struct Printed {
    pub len: usize,
    pub bytes: [u8; ROOM],
}
