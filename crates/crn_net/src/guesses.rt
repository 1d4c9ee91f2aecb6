ghost use Rattle.std.specs.Prelude.{◌<◌, ◌^◌};

// The number of guesses. Of 60 names, few share one.
const SIZE: usize = 1024;

// Guesses where the entries of a table are, each under a mark of the entry. Entries may share a mark, so a guess
// may be wrong: a look-up tests whether the entry is there, and if it is not, searches the table.
#[derive(Drop)]
pub(crate) struct Guesses {
    places: [u8; SIZE],
}

// Where the guess for a mark is. Near marks are spread over all places.
fn slot(mark: usize) -> usize
    ensures { result < SIZE }
{
    (mark.wrapping_mul(0x9e37_79b9_7f4a_7c15) >> 48) % SIZE
}

impl Guesses {
    pub(crate) fn new() -> Guesses {
        Guesses { places: [0; SIZE] }
    }

    pub(crate) fn place(&self, mark: usize) -> usize {
        self.places[slot(mark)] as usize
    }

    pub(crate) fn put(&mut self, mark: usize, place: usize)
        requires { place < 2 ^ 8 }
    {
        self.places[slot(mark)] = place as u8;
    }
}

// The guesses of a builder's tables.
#[derive(Drop)]
pub(crate) struct TableGuesses {
    pub(crate) names: Guesses,
    pub(crate) rows: Guesses,
}

impl TableGuesses {
    pub(crate) fn new() -> TableGuesses {
        TableGuesses {
            names: Guesses::new(),
            rows: Guesses::new(),
        }
    }
}
