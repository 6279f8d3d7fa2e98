// The program under the new numbers of its cells: `id` has a cell's number, `code` a number's cell. An operand and a due are numbers, as in the search.
// Private to the crate: `solve` hands on the numbers that it asks for.
ghost use Rattle.std.specs.Prelude.{◌≡◌, Option, ℕ, suc, ◌+◌, ◌-◌, ◌*◌, ◌/◌, ◌%◌, ◌≤◌, ◌<◌, length};
ghost use Rattle.graph.specs.Columns.{at};
ghost use Rattle.search.specs.inner.Program.{program_of, asked};
ghost use Rattle.search.specs.inner.Problem.{columns_of};
ghost use Rattle.solve.specs.inner.Numbers.{Paired, renumbered, Renumberable, ProgramRenumbered, Redue, refilled, Refill};

use graph::column;
use search::{BITS, Columns, Program};

// An operand: a chosen bit stays, a cell has its new number.
#[tactic(auto, unfolding(crate::specs::inner::Numbers::renumbered))]
fn renumbered(x: u16, id: &[u16]) -> u16
    requires { Renumberable id.now x }
    ensures { result ≡ renumbered id.now x }
{
    if x < BITS {
        x
    } else {
        BITS + id[(x - BITS) as usize]
    }
}

// What a cell sees, put where it has its operands.
fn put_operands(operands: &[u16], id: &[u16], operand: &mut [u16])
    requires room { length operands.now ≤ length operand.old }
    requires numbered { (t : ℕ) → t < length operands.now → Renumberable id.now (at operands.now t) }
    ensures { (t : ℕ) → t < length operands.now → at operand.new t ≡ renumbered id.now (at operands.now t) }
{
    for (t, x) in operands.iter().enumerate() {
        operand[t] = renumbered(*x, id);
    }
}

// The cells in the order of their new numbers.
// Kept: a loop, as `put_operands` above, beside the two of choose's `wire`: one function for both would take what becomes of an operand as a closure, and its
// law would be the union of `Appended` and `ProgramRenumbered`, no plainer. And the room is asked for, as at `solve_in`.
pub fn renumber<const CELLS: usize, const FIRSTS: usize, const OPERANDS: usize>(
    program: Program<'_>,
    id: &[u16],
    code: &[u16],
    to: &mut Columns<CELLS, FIRSTS, OPERANDS>,
)
    requires paired { Paired (length program.kind.now) id.now code.now }
    requires room { (length program.kind.now ≤ CELLS) × (length program.kind.now < FIRSTS) × (OPERANDS < 65536)
        × ((i : ℕ) → i < length program.kind.now → at program.first.now (suc i) ≤ OPERANDS) }
    ensures { ProgramRenumbered (length program.entry.kind.now) (columns_of program.entry) id.now code.now (program_of to.new.kind to.new.first to.new.operand) }
{
    to.first[0] = 0;
    for q in 0..program.kind.len() {
        let i = code[q] as usize;
        let operands = program.operands(i);
        let start = to.first[q] as usize;
        let end = start + operands.len();
        to.kind[q] = program.kind[i];
        let operand = &mut to.operand[..];
        put_operands(operands, id, &mut operand[start..end]);
        to.first[q + 1] = end as u16;
    }
}

// The dues, each of the same cell under its new number.
pub fn renumbered_dues<const DUES: usize>(due: &[u16], id: &[u16]) -> [u16; DUES]
    requires room { length due.now ≤ DUES }
    requires numbered { (x : ℕ) → x < length due.now → (at due.now x / 2 < length id.now) × (at id.now (at due.now x / 2) < 12288) }
    ensures { Redue id.now (length due.now) due.now result }
{
    column(due.len(), 0, |x| id[(due[x] / 2) as usize] * 2 + due[x] % 2)
}

// What asks for a filling: nothing, or a cell, which has its new number.
fn refilled(place: Option<u16>, id: &[u16]) -> Option<u16>
    requires { (i : ℕ) → place ≡ Some i → i < length id.now }
    ensures { result ≡ refilled id.now place }
{
    place.map(|cell| id[cell as usize])
}

// What asks for fillings, each the same cell under its new number.
pub fn renumbered_fill<const N: usize>(fill: &[Option<u16>], id: &[u16]) -> [Option<u16>; N]
    requires room { length fill.now ≤ N }
    requires numbered { (x i : ℕ) → asked fill.now x ≡ Some i → i < length id.now }
    ensures { Refill id.now fill.now result }
{
    column(fill.len(), None, |x| refilled(fill[x], id))
}
