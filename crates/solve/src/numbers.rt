// New numbers for the cells: by level, the leading bits that a cell depends on; within a level in the order in which what is due needs them.
// An operand and a due are numbers, as in the search. Private to the crate: `solve` hands on the right program that it asks for.
ghost use Rattle.std.specs.Prelude.{◌≤◌, length};
ghost use Rattle.solve.specs.inner.Numbers.{layers_of, Layered, Numbered};

use graph::Items;
use search::{BITS, CELLS, LEVELS, Program};

// A cell without a number.
// Kept: a number and no Option: in the end every cell has one, and `renumber` reads the column as numbers; Options would first be copied into a second column.
const NONE: u16 = CELLS as u16;

// The numbers that are given so far: to all cells of levels below `level` and some of this one.
#[derive(Drop)]
pub struct Numbers<'a, 'b, const CELLS: usize> {
    program: Program<'a>,
    // The level of each cell.
    span: &'b [u16],
    level: u16,
    // Each cell's number.
    pub id: [u16; CELLS],
    // Each number's cell: as many as there are numbers.
    pub code: Items<CELLS>,
    // The cells that wait for their numbers, each needed by the one below it.
    // Kept: an array, whose height `number_cell` counts: `Items` only grows; with `pop` the law of the stack would be of a list that is cut, and not of places that stay.
    stack: [u16; CELLS],
    ghost few: { CELLS ≤ 12288 },
    ghost layered: { Layered (layers_of (length program.kind.now) program.first.now program.operand.now span.now) },
    ghost numbered: { Numbered (layers_of (length program.kind.now) program.first.now program.operand.now span.now) level (length code) id code },
}

impl<'a, 'b, const CELLS: usize> Numbers<'a, 'b, CELLS> {
    ghost use Rattle.std.specs.Prelude.{◌≡◌, [], ℕ, ◌+◌, ◌/◌, ◌≤◌, ◌<◌, length};
    ghost use Rattle.graph.specs.Columns.{at};
    ghost use Rattle.solve.specs.inner.Numbers.{Missing, Ranked};
    ghost use Rattle.solve.specs.inner.Parts.{Spans};
    ghost use Rattle.solve.specs.inner.Numbering.{numbered_layers, Further};

    // No number yet.
    // Kept: the room is asked for, as at `solve_in`.
    pub fn new(program: Program<'a>, span: &'b [u16]) -> Self
        requires { (length program.kind.now ≤ CELLS) × (CELLS ≤ 12288) × Layered (layers_of (length program.kind.now) program.first.now program.operand.now span.now) }
        ensures { (result.program ≡ program.entry) × (result.span ≡ span.entry) × (result.level ≡ 0) × (result.code ≡ []) }
    {
        Numbers {
            program,
            span,
            level: 0,
            id: [NONE; CELLS],
            code: Items::new(),
            stack: [0; CELLS],
        }
    }

    // A cell of the same level that cell i needs and that has no number yet.
    fn missing(&self, i: usize) -> Option<usize>
        requires { i < length self.now.program.kind.now }
        ensures { Missing (numbered_layers self.now) self.now.id i result }
    {
        for x in self.program.operands(i) {
            if BITS <= *x {
                let source = (*x - BITS) as usize;
                if self.span[source] == self.span[i] && self.id[source] == NONE {
                    return Some(source);
                }
            }
        }
        None
    }

    // Cell i gets a number, after the cells of its level that it needs.
    // The top of the stack is numbered when nothing is missing that it needs; what is missing goes on top of it.
    fn number_cell(&mut self, i: usize)
        requires { (i < length self.old.program.kind.now) × (at self.old.span.now i ≡ self.old.level) × (at self.old.id i ≡ 12288) }
        ensures further { Further self.old self.new × (self.new.level ≡ self.old.level) }
        ensures numbered { at self.new.id i < length self.new.code }
    {
        self.stack[0] = i as u16;
        let mut h = 1;
        // Kept: h is the height of the stack, which rises and falls.
        while 0 < h {
            let top = self.stack[h - 1] as usize;
            match self.missing(top) {
                Some(source) => {
                    self.stack[h] = source as u16;
                    h += 1;
                }
                None => {
                    self.id[top] = self.code.len() as u16;
                    self.code.push(top as u16);
                    h -= 1;
                }
            }
        }
    }

    // Cell i, if it is of this level and has no number yet.
    fn number_if(&mut self, i: usize)
        requires { i < length self.old.program.kind.now }
        ensures further { Further self.old self.new × (self.new.level ≡ self.old.level) }
        ensures numbered { at self.old.span.now i ≡ self.old.level → at self.new.id i < length self.new.code }
    {
        if self.span[i] == self.level && self.id[i] == NONE {
            self.number_cell(i);
        }
    }

    // All cells of level m, whose turn it is: those of which something is due first, in the order of the dues. Then it is the turn of the next level.
    fn number_level(&mut self, m: u16, due: &[u16])
        requires level { (self.old.level ≡ m) × (m ≤ 24) }
        requires due { (x : ℕ) → x < length due.now → at due.now x / 2 < length self.old.program.kind.now }
        ensures further { Further self.old self.new × (self.new.level ≡ m + 1) }
        ensures low { (q : ℕ) → q < length self.new.code → at self.new.span.now (at self.new.code q) ≤ m }
    {
        for x in due {
            self.number_if((*x / 2) as usize);
        }
        for i in 0..self.program.kind.len() {
            self.number_if(i);
        }
        self.level = m + 1;
    }

    // All cells, level by level. Where each level begins.
    // Kept: the levels stand whole, as in search `Extent`.
    pub fn number_levels(&mut self, due: &[u16]) -> [u16; LEVELS]
        requires none { (self.old.level ≡ 0) × (self.old.code ≡ []) }
        requires spans { Spans self.old.program.bits self.old.program.first.now self.old.program.operand.now self.old.span.now (length self.old.program.kind.now) }
        requires due { (x : ℕ) → x < length due.now → at due.now x / 2 < length self.old.program.kind.now }
        ensures { Ranked (length self.old.program.kind.now) self.old.program.bits self.old.program.first.now self.old.program.operand.now self.new.id self.new.code result }
    {
        let mut levels = [0u16; LEVELS];
        let last = self.program.bits as usize + 1;
        for m in 0..last {
            levels[m] = self.code.len() as u16;
            self.number_level(m as u16, due);
        }
        levels[last] = self.code.len() as u16;
        levels
    }
}
