ghost use Rattle.std.specs.Prelude.{◌≡◌, ◌<◌, ◌+◌, ◌-◌, [], true, min, IfOk};
ghost use Rattle.crn_io.specs.Next.{NextGives};

use crate::device::Source;
use crate::fault::NoMemory;
use crate::gather::{Gathered, seek};
use crate::next::Next;
use std::alloc::Global;
use std::marker::Model;

/// The most bytes of a line, its LF not counted.
pub const MAX_LINE: usize = 16_384;

/// The most bytes of one pull, and so the most that are held after the last line.
pub const MAX_AHEAD: usize = 4_096;

/// A document has fewer bytes than this.
pub const MAX_DOCUMENT: u64 = 4_294_967_296;

/// The most numbers of a line of a document.
pub const MAX_NUMBERS: usize = 400;

/// The most lists that a document writes once and names later.
pub const MAX_SHARED: usize = 4_096;

/// The lines of a source, one after another, in memory that is reserved once.
///
/// What it pulled after the last line stays in it, so all calls are for one source.
#[derive(Drop)]
pub struct Lines {
    held: Vec<u8>,
    piece: Vec<u8>,
    from: usize,
    length: usize,
    next: usize,
    taken: u64,
    goes_on: bool,
}

impl Model for Lines {
    ghost use Rattle.std.specs.Prelude.{◌≡◌, ◌≤◌, ◌<◌, ◌+◌, take, drop, true, vec_len, vec_capacity};
    ghost use Rattle.crn_io.specs.Next.{KeptLines};
    ghost use Rattle.crn_io.specs.declared.lines.TheConstants.{MAX_LINE, MAX_AHEAD, MAX_DOCUMENT};

    ghost Value = { KeptLines };

    ghost view = { λ s. record {
      ahead = drop s.next s.held.items;
      taken = s.taken;
      line = take s.length (drop s.from s.held.items);
      goes_on = s.goes_on;
    } };

    ghost invariant = { λ s. (s.next ≤ vec_len s.held)
        × (s.from + s.length ≤ vec_len s.held)
        × (vec_len s.piece ≡ MAX_AHEAD)
        × (MAX_LINE + 1 + MAX_AHEAD ≤ vec_capacity s.held)
        × (s.taken < MAX_DOCUMENT)
        × (s.goes_on ≡ true → vec_len s.held ≤ s.next + MAX_AHEAD) };
}

// The bytes of a line that are looked at: one more than the longest line has, or those up to the document's bound.
fn window(taken: u64) -> usize
    requires { taken < MAX_DOCUMENT }
    ensures { result ≡ min (MAX_LINE + 1) (MAX_DOCUMENT - taken) }
{
    (MAX_DOCUMENT - taken).min(MAX_LINE as u64 + 1) as usize
}

impl Lines {
    /// Takes memory for one line and for one pull.
    pub fn new(alloc: Global) -> Result<Lines, NoMemory>
        ensures { IfOk result (λ made. made ≡ record {
          ahead = [];
          taken = 0;
          line = [];
          goes_on = true;
        }) }
    {
        Ok(Lines {
            held: Vec::with_capacity(alloc, MAX_LINE + 1 + MAX_AHEAD)?,
            piece: vec![in alloc; 0; MAX_AHEAD]?,
            from: 0,
            length: 0,
            next: 0,
            taken: 0,
            goes_on: true,
        })
    }

    /// The last line that was given, without its LF. Takes no memory.
    pub fn line(&self) -> &[u8]
        ensures { result.now ≡ self.now.line }
    {
        &self.held[self.from..self.from + self.length]
    }

    /// The next line, which `line` then shows. Takes no memory.
    ///
    /// It is not called again after another answer than `Line`, and always over the same source.
    pub fn next<S: Source>(&mut self, source: &mut S) -> Next
        requires { self.old.goes_on ≡ true }
        ensures { NextGives result self.old self.new (S.seen source.old) (S.seen source.new) }
    {
        self.goes_on = false;
        self.from = 0;
        self.length = 0;
        let most = window(self.taken);
        match seek(
            source,
            &mut self.held,
            &mut self.next,
            &mut self.piece,
            most,
        ) {
            Gathered::Ended(i) => {
                if self.taken + i.min(MAX_LINE) as u64 + 1 >= MAX_DOCUMENT {
                    return Next::DocumentTooLong;
                }
                if i > MAX_LINE {
                    return Next::LineTooLong;
                }
                self.from = self.next;
                self.length = i;
                self.next += i + 1;
                self.taken += i as u64 + 1;
                self.goes_on = true;
                Next::Line
            }
            Gathered::Enough => {
                if self.taken + MAX_LINE as u64 + 1 < MAX_DOCUMENT {
                    return Next::LineTooLong;
                }
                Next::DocumentTooLong
            }
            Gathered::Nothing => {
                if self.next == self.held.len() {
                    return Next::End;
                }
                self.from = self.next;
                self.length = self.held.len() - self.next;
                Next::Last
            }
            Gathered::Failed => Next::Failed,
        }
    }
}
