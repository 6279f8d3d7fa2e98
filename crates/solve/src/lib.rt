// The best list of fillings and a choice under which a row of gates gives what is due, whatever the order of its cells: they are numbered anew, by the
// leading bits that they depend on, and handed to the search.
// Internal: asks of the caller a right program.
#![tactic(auto)]

mod numbers;
mod renumber;
mod spans;

ghost use Rattle.std.specs.Prelude.{ℕ, suc, ◌≤◌, ◌<◌, length};
ghost use Rattle.graph.specs.Columns.{at};
ghost use Rattle.search.specs.inner.Program.{rows_of, total_of, Owes, Solves};
ghost use Rattle.search.specs.inner.Problem.{columns_of, SolvesProblem};

use crate::numbers::Numbers;
use crate::renumber::{renumber, renumbered_dues, renumbered_fill};
use crate::spans::spans;
use search::{
    CELLS, Columns, DUES, FEW_CELLS, FEW_DUES, FEW_FIRSTS, FEW_OPERANDS, FIRSTS, OPERANDS, Owed,
    Problem, Program, search_lists,
};

// A list has at most so many bits.
// Kept: moves' `MOST_CHOSEN`, since neither crate lies below the other.
const FILLINGS: usize = 24;

// The search in columns for at most so many cells, operands and dues: short columns are quickly cleared.
// Kept: that there is room is asked for here and at `Numbers::new`, `renumber` and `spans`: it ties a program to a size that the caller names, and only `Numbers` has both.
fn solve_in<const CELLS: usize, const FIRSTS: usize, const OPERANDS: usize, const DUES: usize>(
    problem: Problem<'_>,
) -> Option<u32>
    requires room { (length problem.program.kind.now ≤ CELLS) × (length problem.program.kind.now < FIRSTS)
        × ((i : ℕ) → i < length problem.program.kind.now → at problem.program.first.now (suc i) ≤ OPERANDS) × (total_of problem.owed.begin.now ≤ DUES) }
    requires few { (CELLS ≤ 12288) × (FIRSTS < 65536) × (OPERANDS < 65536) × (DUES < 65536) }
    ensures { SolvesProblem problem.entry result }
{
    let program = problem.program;
    let dues = problem.dues();
    let span: [u16; CELLS] = spans(program);
    let mut numbers: Numbers<'_, '_, CELLS> = Numbers::new(program, &span);
    let levels = numbers.number_levels(dues);
    let mut columns: Columns<CELLS, FIRSTS, OPERANDS> = Columns::new();
    renumber(program, &numbers.id, numbers.code.as_slice(), &mut columns);
    let due: [u16; DUES] = renumbered_dues(dues, &numbers.id);
    let owed = Owed {
        due: &due,
        begin: problem.owed.begin,
    };
    let fill: [Option<u16>; FILLINGS] = renumbered_fill(problem.fill, &numbers.id);
    let anew = Problem {
        program: columns.program(program.kind.len(), program.bits),
        owed,
        fill: &fill[..problem.fill.len()],
    };
    search_lists(anew, levels)
}

// The best list: fillings, each the value of the cell that it asks for, then a choice under which every cell gives what is due of it; None, where no list does.
pub fn solve_lists(problem: Problem<'_>) -> Option<u32>
    requires { length problem.program.operand.now ≤ 24576 }
    ensures { SolvesProblem problem.entry result }
{
    let program = problem.program;
    let cells = program.kind.len();
    if cells <= FEW_CELLS
        && program.first[cells] as usize <= FEW_OPERANDS
        && problem.dues().len() <= FEW_DUES
    {
        return solve_in::<FEW_CELLS, FEW_FIRSTS, FEW_OPERANDS, FEW_DUES>(problem);
    }
    solve_in::<CELLS, FIRSTS, OPERANDS, DUES>(problem)
}

// The best choice under which every cell gives what is due of it: nothing is filled, so a list is a choice.
pub fn solve(program: Program<'_>, owed: Owed<'_>) -> Option<u32>
    requires owes { Owes (length program.kind.now) owed.due.now owed.begin.now (rows_of owed.begin.now) }
    requires few { length program.operand.now ≤ 24576 }
    ensures { Solves program.entry.bits (columns_of program.entry) owed.entry.due.now (total_of owed.entry.begin.now) result }
{
    let fill: [Option<u16>; 0] = [];
    solve_lists(Problem {
        program,
        owed,
        fill: &fill,
    })
}
