// How many leading bits of the choice each cell depends on.
// Private to the crate: `solve` hands on the right program that it asks for.
ghost use Rattle.std.specs.Prelude.{◌≡◌, ℕ, ◌-◌, ◌≤◌, ◌<◌, length};
ghost use Rattle.graph.specs.Columns.{at};
ghost use Rattle.solve.specs.inner.Parts.{depth, Most, Spans};

use search::{BITS, Program};

// How many an operand depends on: a chosen bit on those up to it, a cell on its span. (An operand is a number, as in the search.)
#[tactic(auto, unfolding(crate::specs::inner::Parts::depth))]
fn reach_of(x: u16, span: &[u16]) -> u16
    requires { 32 ≤ x → x - 32 < length span.now }
    ensures { result ≡ depth span.now x }
{
    if x < BITS {
        x + 1
    } else {
        span[(x - BITS) as usize]
    }
}

// How many a cell depends on: the most that one of its operands does.
fn span_of(operands: &[u16], span: &[u16]) -> u16
    requires { (j : ℕ) → j < length operands.now → 32 ≤ at operands.now j → at operands.now j - 32 < length span.now }
    ensures { Most operands.now span.now result }
{
    let mut most = 0;
    for x in operands {
        most = reach_of(*x, span).max(most);
    }
    most
}

// How many each cell depends on, by its operands, which come before it.
// Kept: the room is asked for, as at `solve_in`.
pub fn spans<const CELLS: usize>(program: Program<'_>) -> [u16; CELLS]
    requires { length program.kind.now ≤ CELLS }
    ensures { Spans program.entry.bits program.entry.first.now program.entry.operand.now result (length program.entry.kind.now) }
{
    let mut span = [0u16; CELLS];
    for i in 0..program.kind.len() {
        span[i] = span_of(program.operands(i), &span);
    }
    span
}
