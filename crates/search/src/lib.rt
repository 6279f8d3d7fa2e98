// The search for start values: the best list of bits, fillings and a choice, under which a row of gates gives what is due.
// Internal: asks of the caller a right program whose cells are ordered by level (`solve` orders them).
#![tactic(auto)]

mod choices;
mod program;
mod rows;

ghost use Rattle.std.specs.Prelude.{◌≡◌, ◌+◌, ◌≤◌, length};
ghost use Rattle.search.specs.inner.Program.{total_of, Levelled};
ghost use Rattle.search.specs.inner.Problem.{columns_of, SolvesProblem};

use crate::choices::{Cells, Extent, Rows, best_list, two_to};
pub use crate::program::{Columns, Owed, Problem, Program};
use crate::rows::{DueRows, put_levels};
use gates::{IndexTable, truths};

// Cells, of 512 nodes at 24 clocks each; where the operands of each begin and those of the last end; all operands, and dues, of 1,024 edges at 24 clocks each.
pub const CELLS: usize = 12288;

pub const FIRSTS: usize = CELLS + 1;

pub const OPERANDS: usize = 24576;

pub const DUES: usize = 24576;

// So of small searches: short columns are quickly cleared.
pub const FEW_CELLS: usize = 512;

pub const FEW_FIRSTS: usize = FEW_CELLS + 1;

pub const FEW_OPERANDS: usize = 2048;

pub const FEW_DUES: usize = 1024;

// An operand below this is a chosen bit, the others are cells.
pub const BITS: u16 = 32;

// What each operand shows: chosen bits, and from here on cells.
const SHOWN: usize = BITS as usize;

const SIGNALS: usize = SHOWN + CELLS;

const FEW_SIGNALS: usize = SHOWN + FEW_CELLS;

// Where the levels 0 to 24 begin, and where the last ends.
pub const LEVELS: usize = 26;

// The search in columns for at most so many cells, dues and signals, which are the chosen bits and the cells.
fn search_within<const C: usize, const D: usize, const S: usize>(
    problem: Problem<'_>,
    levels: [u16; LEVELS],
) -> Option<u32>
    requires levelled { Levelled (length problem.program.kind.now) problem.program.bits (columns_of problem.program) levels }
    requires room { (length problem.program.kind.now ≤ C) × (total_of problem.owed.begin.now ≤ D) × (32 + length problem.program.kind.now ≤ S) }
    requires few { (C ≤ 12288) × (D ≤ 24576) × (S ≤ 12320) }
    ensures { SolvesProblem problem.entry result }
{
    let program = problem.program;
    let many = program.bits as usize + 1;
    let mut level = [0u8; C];
    put_levels(&levels[..many + 1], &mut level);
    let mut rows: DueRows<'_, D> = DueRows::new(problem, &level);
    let begin = rows.push_levels(many);
    let e = Extent {
        limit: two_to(program.bits),
        dues: begin[many] as usize,
        levels,
        rows: begin,
    };
    let truth = truths::<C>(program.kind, program.first);
    let index = IndexTable::new();
    let cells = Cells {
        program,
        truth: &truth,
        index: &index,
    };
    let rows = Rows {
        level: &level,
        row: rows.row.as_slice(),
        left: &rows.left,
    };
    let mut sig = [0u8; S];
    best_list(cells, rows, problem.fill, e, &mut sig)
}

// The best list: fillings, then a choice under which every cell gives what is due of it; None, where no list does. Cells are in rising order of the
// leading bits that they depend on; those of level m, which depend on m of them, from levels[m] on. Where nothing asks for a filling, it is 0.
pub fn search_lists(problem: Problem<'_>, levels: [u16; LEVELS]) -> Option<u32>
    requires { Levelled (length problem.program.kind.now) problem.program.bits (columns_of problem.program) levels }
    ensures { SolvesProblem problem.entry result }
{
    if problem.program.kind.len() <= FEW_CELLS && problem.dues().len() <= FEW_DUES {
        return search_within::<FEW_CELLS, FEW_DUES, FEW_SIGNALS>(problem, levels);
    }
    search_within::<CELLS, DUES, SIGNALS>(problem, levels)
}
