ghost use Rattle.std.specs.Prelude.{◌≡◌, ◌<◌, ◌++◌, ◌∷◌, [], length, slice_index_or, IfOk, IfSome};
ghost use Rattle.crn_document.specs.declared.met.MetLine.{MetLine};

use crn_ctext::are_same;
use crn_ctree::KnownCut;
use crn_io::NoMemory;
use std::alloc::Global;

// The most lines of a tree that are kept, and the most bytes of one.
const MAX_MET: usize = 512;

const MAX_MET_LINE: usize = 512;

// How many marks of lines there are.
const MARKS: usize = 4_096;

/// A line that says a cut, and the cut worked out.
#[derive(Drop)]
pub(crate) struct MetLine<'a> {
    pub(crate) line: Vec<u8>,
    pub(crate) cut: KnownCut<'a>,
}

/// Lines of one tree that say cuts, each of which may come again. In version 2 there are none, since a list that is
/// written more than once can be shared. A line is found by its mark; of two lines with one mark the first is kept.
#[derive(Drop)]
pub(crate) struct MetLines<'a> {
    // of each mark the number of its line, counted from 1, or 0
    places: Vec<u16>,
    pub(crate) lines: Vec<MetLine<'a>>,
}

// Mixes eight bytes into the mark of the bytes before them.
fn mixed(mark: u64, word: u64) -> u64 {
    (mark.rotate_left(5) ^ word).wrapping_mul(0x9e37_79b9_7f4a_7c15)
}

// The mark of the bytes before, and of all eights of these.
fn mark_after(mark: u64, line: &[u8]) -> u64 {
    match line {
        [a, b, c, d, e, f, g, h, line @ ..] => {
            let word = u64::from_le_bytes([*a, *b, *c, *d, *e, *f, *g, *h]);
            mark_after(mixed(mark, word), line)
        }
        _ => mark,
    }
}

// The last eight bytes, if there are this many.
fn last_eight(line: &[u8]) -> u64 {
    match line {
        [.., a, b, c, d, e, f, g, h] => u64::from_le_bytes([*a, *b, *c, *d, *e, *f, *g, *h]),
        _ => 0,
    }
}

// A mark for a line, which few other lines have.
fn mark_of(line: &[u8]) -> usize
    ensures { result < MARKS }
{
    (mark_after(last_eight(line), line) >> 32) as usize % MARKS
}

impl<'a> MetLines<'a> {
    /// No lines, with memory for their marks in version 1.
    pub(crate) fn new(alloc: Global, version: u32) -> Result<MetLines<'a>, NoMemory>
        ensures { IfOk result (λ made. made.lines.items ≡ []) }
    {
        let marks = if version == 1 { MARKS } else { 0 };
        Ok(MetLines {
            places: vec![in alloc; 0; marks]?,
            lines: Vec::new(alloc),
        })
    }

    /// The place of this line among those that were met.
    pub(crate) fn find(&self, line: &[u8]) -> Option<usize>
        ensures { IfSome result (λ i. (i < length self.now.lines.items)
            × ((m : MetLine) → m ≡ slice_index_or self.now.lines.items i m
            → m.line.items ≡ line.now)) }
    {
        if self.lines.is_empty() || MAX_MET_LINE < line.len() {
            return None;
        }
        let i = usize::from(*self.places.get(mark_of(line))?).checked_sub(1)?;
        let met = self.lines.get(i)?;
        if are_same(&met.line, line) {
            return Some(i);
        }
        None
    }

    /// Whether this line would be kept: there is room, and no line with its mark is kept.
    pub(crate) fn has_room(&self, line: &[u8]) -> bool {
        if MAX_MET <= self.lines.len() || MAX_MET_LINE < line.len() {
            return false;
        }
        match self.places.get(mark_of(line)) {
            Some(place) => *place == 0,
            None => false,
        }
    }

    /// Keeps a line.
    pub(crate) fn add(
        &mut self,
        alloc: Global,
        line: &[u8],
        cut: KnownCut<'a>,
    ) -> Result<usize, NoMemory>
        ensures place { IfOk result (λ i. i ≡ length self.old.lines.items) }
        ensures added { IfOk result (λ _. (m : MetLine)
            × (self.new.lines.items ≡ self.old.lines.items ++ m ∷ [])
            × (m.line.items ≡ line.now) × (m.cut ≡ cut.entry)) }
    {
        let i = self.lines.len();
        let bytes = Vec::from_slice(alloc, line)?;
        self.lines.push(MetLine { line: bytes, cut })?;
        if let Some(place) = self.places.get_mut(mark_of(line)) {
            *place = i.min(MAX_MET - 1) as u16 + 1;
        }
        Ok(i)
    }
}
