// What is searched: a program in columns, what is due of its cells, and what fills the list.
// Required: what `Program` and `Problem` state in their types, those who make them have to know.
ghost use Rattle.std.specs.Prelude.{◌≡◌, suc, ◌<◌, length, take, replicate};
ghost use Rattle.graph.specs.Columns.{at};
ghost use Rattle.gates.specs.inner.Gates.{part};
ghost use Rattle.search.specs.inner.Program.{program_of, operands_of, RightProgram, rows_of, total_of, Owes, Fillable};

// A program: of each cell the kind of its gate, and where its operands begin; all operands; how many bits are chosen.
#[derive(Clone, Copy)]
pub struct Program<'a> {
    // Kept: bytes, as the record's column has them: `truths` reads both and makes a `Kind` of each once; a column of `Kind`s would first have to be made of the record for
    // simulate and starts.
    pub kind: &'a [u8],
    // One place more than there are cells: where the operands of the last one end.
    pub first: &'a [u16],
    // Kept: an operand is one number and no enum, as it is the place of its signal: `Gate::value` reads it there, bit or cell.
    pub operand: &'a [u16],
    pub bits: u32,
    pub ghost right: { RightProgram (length kind.now) bits (program_of kind.now first.now operand.now) },
}

impl<'a> Program<'a> {
    // What cell i sees.
    // Kept: one line, as in gates `gate`, graph `of` and `row` below: what makes the places rise is another fact in each type (`RightProgram`, `Evaluable`, `rising`,
    // `Owes`), so a shared type would ask it again.
    pub fn operands(self, i: usize) -> &'a [u16]
        requires { i < length self.kind.now }
        ensures { result.now ≡ operands_of self.entry.first.now self.entry.operand.now i }
    {
        &self.operand[self.first[i] as usize..self.first[i + 1] as usize]
    }
}

// The columns of a program, with room for so many cells and operands.
// Kept: columns of fixed length without how many count, no heap: `Items` holds u16 and grows at its end, while choose and solve's `renumber` put a cell at its place; `program`
// cuts the kinds to the cells.
#[derive(Drop)]
pub struct Columns<const CELLS: usize, const FIRSTS: usize, const OPERANDS: usize> {
    pub kind: [u8; CELLS],
    pub first: [u16; FIRSTS],
    pub operand: [u16; OPERANDS],
    pub ghost kind_rows: { length kind ≡ CELLS },
    pub ghost first_rows: { length first ≡ FIRSTS },
    pub ghost operand_rows: { length operand ≡ OPERANDS },
}

impl<const CELLS: usize, const FIRSTS: usize, const OPERANDS: usize> Columns<
    CELLS,
    FIRSTS,
    OPERANDS,
> {
    // All 0.
    pub fn new() -> Self
        ensures { (result.kind ≡ replicate CELLS 0) × (result.first ≡ replicate FIRSTS 0) × (result.operand ≡ replicate OPERANDS 0) }
    {
        Columns {
            kind: [0; CELLS],
            first: [0; FIRSTS],
            operand: [0; OPERANDS],
        }
    }

    // The program of the first cells, over so many chosen bits.
    pub fn program(&self, cells: usize, bits: u32) -> Program<'_>
        requires { RightProgram cells bits (program_of self.now.kind self.now.first self.now.operand) }
        ensures columns { program_of result.kind.now result.first.now result.operand.now ≡ program_of (take cells self.now.kind) self.now.first self.now.operand }
        ensures bits { result.bits ≡ bits }
    {
        Program {
            kind: &self.kind[..cells],
            first: &self.first,
            operand: &self.operand,
            bits,
        }
    }
}

// What is due, in rows: row e stands in `due` from begin[e] up to begin[e + 1], a run of one edge's moved clocks.
#[derive(Clone, Copy)]
pub struct Owed<'a> {
    // Kept: a due is one number, 2 i + x for "cell i must give x", and no pair: columns of pairs take twice the fixed memory, which is cleared for each search, and
    // `Items` holds numbers.
    pub due: &'a [u16],
    // One place more than there are rows: where the last one ends.
    pub begin: &'a [u16],
}

// A program, what is due of its cells, and what asks for fillings: the value of cell i, where it is `Some(i)`.
#[derive(Clone, Copy)]
pub struct Problem<'a> {
    pub program: Program<'a>,
    pub owed: Owed<'a>,
    pub fill: &'a [Option<u16>],
    pub ghost owes: { Owes (length program.kind.now) owed.due.now owed.begin.now (rows_of owed.begin.now) },
    pub ghost fillable: { Fillable (length program.kind.now) program.bits fill.now },
}

impl<'a> Problem<'a> {
    // What row e asks.
    pub fn row(self, e: usize) -> &'a [u16]
        requires { e < rows_of self.owed.begin.now }
        ensures { result.now ≡ part self.entry.owed.due.now (at self.entry.owed.begin.now e) (at self.entry.owed.begin.now (suc e)) }
    {
        let begin = self.owed.begin;
        &self.owed.due[begin[e] as usize..begin[e + 1] as usize]
    }

    // What is due, one row after the other.
    pub fn dues(self) -> &'a [u16]
        ensures { result.now ≡ take (total_of self.entry.owed.begin.now) self.entry.owed.due.now }
    {
        let begin = self.owed.begin;
        &self.owed.due[..begin[begin.len() - 1] as usize]
    }
}
