// The table by which truth words are read.
ghost use Rattle.std.specs.Prelude.{◌≡◌, ℕ, ◌<◌, ◌≤◌};
ghost use Rattle.graph.specs.Columns.{at};
ghost use Rattle.gates.specs.inner.Gates.{picked, Table};

// The seed of a truth word stands in bits 9 and up: 0 or 32, behind which at most 8 or 3 inputs are gathered.
const WORDS: usize = 264;

// For each gathered word, which bit of a truth word it asks for: `new` finds them, and a caller that has them gives its own.
#[derive(Clone, Copy)]
pub struct IndexTable {
    pub places: [u8; WORDS],
    pub ghost table: { Table places },
}

// Which bit of a truth word a gathered word asks for: the number of its ones; behind the seed 32 the three inputs themselves.
fn pick(word: u32) -> u8
    ensures { result ≡ picked word }
{
    if word < 256 {
        u32::count_ones(word) as u8
    } else {
        (word % 8) as u8
    }
}

impl IndexTable {
    // Each word's bit is found once.
    pub fn new() -> IndexTable
        ensures { Table result.places }
    {
        let mut places = [0u8; WORDS];
        for (word, place) in places.iter_mut().enumerate() {
            *place = pick(word as u32);
        }
        IndexTable { places }
    }

    // The bit of a truth word that a gathered word asks for.
    pub(crate) fn bit_of(&self, word: usize) -> u32
        requires { word < 264 }
        ensures { (result ≡ picked word) × (result ≤ 8) }
    {
        u32::from(self.places[word])
    }
}
