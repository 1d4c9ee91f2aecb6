ghost use Rattle.std.specs.Prelude.{◌≡◌, ◌≤◌, ◌<◌, IsTrue, List, ℕ, [], ◌∷◌, ◌++◌, length, take, drop};
ghost use Rattle.crn_vec.specs.Lists.{IsIn};
ghost use Rattle.crn_text.specs.Inner.Known.{line_at, AreKnown};

use crn_vec::MAX_TEXT;

// The most lines that are remembered. Few lines of a network share a slot.
const SLOTS: usize = 256;

/// Where a line of a text is: its first byte, counted from 0, and how many bytes it has.
#[derive(Clone, Copy)]
pub(crate) struct Place {
    at: u32,
    length: u32,
}

/// Where lines are that were read before, each in the slot of its bytes. A later line takes the slot of an earlier
/// one, so a line that is not found here may have been read all the same.
#[derive(Drop)]
pub(crate) struct Known {
    pub(crate) places: [Place; SLOTS],
}

// The slot of a line.
fn slot(line: &[u8]) -> usize
    ensures { result < SLOTS }
{
    let length = line.len();
    if length == 0 {
        return 0;
    }
    let first = usize::from(line[0]);
    let middle = usize::from(line[length / 2]);
    let last = usize::from(line[length - 1]);
    let mark = first.wrapping_mul(7).wrapping_add(middle.wrapping_mul(31));
    mark.wrapping_add(last.wrapping_mul(3)).wrapping_add(length) % SLOTS
}

// The bytes at a place. The two `min`s make it total.
fn bytes_at(text: &[u8], place: Place) -> &[u8]
    ensures { result.now ≡ line_at text.now place }
{
    let (_, rest) = text.split_at(text.len().min(place.at as usize));
    let (bytes, _) = rest.split_at(rest.len().min(place.length as usize));
    bytes
}

impl Known {
    /// Remembers no line but the empty one.
    pub(crate) fn new() -> Known
        ensures { (text : List ℕ) (read : List (List ℕ)) → AreKnown text read result.places }
    {
        Known {
            places: [Place { at: 0, length: 0 }; SLOTS],
        }
    }

    /// Whether the line is remembered.
    #[inline(always)]
    pub(crate) fn has(&self, text: &[u8], line: &[u8]) -> bool
        ensures { (read : List (List ℕ)) → AreKnown text.now read self.now.places →
            IsTrue result → IsIn line.now ([] ∷ read) }
    {
        bytes_at(text, self.places[slot(line)]) == line
    }

    /// Remembers a line that is at this place in the text.
    pub(crate) fn put(&mut self, line: &[u8], at: usize)
        requires short { length line.now ≤ MAX_TEXT }
        requires inside { at ≤ MAX_TEXT }
        ensures { (text : List ℕ) (read : List (List ℕ)) →
            take (length line.now) (drop at text) ≡ line.now →
            AreKnown text read self.old.places →
            AreKnown text (read ++ line.now ∷ []) self.new.places }
    {
        self.places[slot(line)] = Place {
            at: at as u32,
            length: line.len() as u32,
        };
    }
}
