ghost use Rattle.std.specs.Prelude.{◌≡◌, ◌≤◌, ◌<◌, IfOk, true, length, map, drop};
ghost use Rattle.std.specs.List.{prefix_len};
ghost use Rattle.crn_text.specs.Tokens.{is_blank};
ghost use Rattle.crn_text.specs.Inner.Pieces.{OccursIn, ReadsTerms, ReadsSide};
ghost use Rattle.crn_text.specs.Inner.Held.{moved, FindsTerms, IsTrimmed};

use crate::bytes::{blanks, is_blank_byte};
use crate::side::read_side;
use crn_net::Term;
use crn_vec::{MAX_TEXT, NoMemory};
use std::alloc::Global;
use std::marker::Model;

// The least and the most bytes of a side that is remembered. A shorter one is read just as fast.
const LEAST: usize = 32;

const MOST: usize = 1024;

// The most sides that are remembered.
const SIDES: usize = 255;

// The number of guesses. Few sides of a network share one.
const GUESSES: usize = 1024;

// How many bytes of a side decide its guess.
const MARKED: usize = 16;

// A side that was read, with its terms, whose places count from its first byte.
#[derive(Drop)]
pub(crate) struct HeldSide {
    bytes: Vec<u8>,
    terms: Vec<Term>,
}

impl Model for HeldSide {
    ghost use Rattle.std.specs.Prelude.{List, ℕ, true};
    ghost use Rattle.crn_net.specs.declared.term.Term.{Term};
    ghost use Rattle.crn_text.specs.Inner.Pieces.{ReadsTerms};

    ghost Value = { List ℕ × List Term };

    ghost view = { λ h. (h.bytes.items, h.terms.items) };

    ghost invariant = { λ h. ReadsTerms h.bytes.items h.bytes.items h.terms.items true };
}

impl HeldSide {
    fn new(alloc: Global, side: &[u8], terms: &[Term]) -> Result<HeldSide, NoMemory>
        requires { ReadsTerms side.now side.now terms.now true }
    {
        let bytes = Vec::from_slice(alloc, side)?;
        let terms = Vec::from_slice(alloc, terms)?;
        Ok(HeldSide { bytes, terms })
    }
}

/// Sides that were read before, and guesses where they are. A side that is not found may have been read all the same.
#[derive(Drop)]
pub(crate) struct Held {
    sides: Vec<HeldSide>,
    guesses: [u8; GUESSES],
    // The terms of the side that was read last.
    terms: Vec<Term>,
}

// Where the guess for a side is.
fn slot(side: &[u8]) -> usize
    ensures { result < GUESSES }
{
    let (prefix, _) = side.split_at(side.len().min(MARKED));
    let mut mark = side.len();
    for byte in prefix {
        mark = mark.wrapping_mul(37).wrapping_add(usize::from(*byte));
    }
    mark % GUESSES
}

// The text without the blanks at its start.
fn after_blanks(text: &[u8]) -> &[u8]
    ensures { result.now ≡ drop (prefix_len is_blank text.now) text.now }
{
    let (_, rest) = text.split_at(blanks(text));
    rest
}

// The text without the blanks at its end.
fn before_blanks(text: &[u8]) -> &[u8]
    ensures { IsTrimmed text.now result.now }
{
    let mut left = text;
    'blanks: while let [prefix @ .., last] = left {
        if !is_blank_byte(*last) {
            break;
        }
        left = prefix;
    }
    left
}

// The term of a side where the side begins this many bytes later.
fn moved(term: &Term, by: u32) -> Term
    ensures { result ≡ moved by term.now }
{
    Term {
        at: term.at.wrapping_add(by),
        length: term.length,
        count: term.count,
    }
}

// Moves the terms of a side to where the side begins this many bytes later.
fn move_all(terms: &mut [Term], by: u32)
    ensures { terms.new ≡ map (λ t. moved by t) terms.old }
{
    for term in terms.iter_mut() {
        *term = moved(term, by);
    }
}

// Replaces the terms in the buffer by those of a side that begins this many bytes later.
fn put_moved(known: &[Term], by: u32, terms: &mut Vec<Term>) -> Result<(), NoMemory>
    ensures { IfOk result (λ done. terms.new.items ≡ map (λ t. moved by t) known.now) }
{
    terms.clear();
    terms.extend_from_slice(known)?;
    move_all(terms, by);
    Ok(())
}

// The terms of a side, if it is where it is guessed.
fn terms_at<'a>(sides: &'a [HeldSide], guess: usize, side: &[u8]) -> Option<&'a [Term]>
    ensures { FindsTerms side.now result }
{
    if guess >= sides.len() {
        return None;
    }
    let held = &sides[guess];
    if held.bytes.as_slice() == side {
        return Some(held.terms.as_slice());
    }
    None
}

impl Held {
    pub(crate) fn new(alloc: Global) -> Held {
        Held {
            sides: Vec::new(alloc),
            guesses: [0; GUESSES],
            terms: Vec::new(alloc),
        }
    }

    // Remembers a side, whose terms are those that were read last.
    fn put(&mut self, side: &[u8]) -> Result<(), NoMemory>
        requires { ReadsTerms side.now side.now self.old.terms.items true }
        ensures { self.new.terms.items ≡ self.old.terms.items }
    {
        let next = self.sides.len();
        if next < SIDES {
            let held = HeldSide::new(*self.terms.allocator(), side, self.terms.as_slice())?;
            self.sides.push(held)?;
            self.guesses[slot(side)] = next as u8;
        }
        Ok(())
    }

    // Reads a side, and remembers it if it passes all tests.
    fn read(&mut self, side: &[u8]) -> Result<bool, NoMemory>
        requires { length side.now ≤ MAX_TEXT }
        ensures { ReadsSide side.now side.now self.new.terms.items result }
    {
        if !read_side(side, side, side.len(), &mut self.terms)? {
            return Ok(false);
        }
        self.put(side)?;
        Ok(true)
    }

    // Replaces the terms in the buffer by those of a side, which ends at `end` in the body.
    fn terms_of(
        &mut self,
        body: &[u8],
        side: &[u8],
        end: usize,
        terms: &mut Vec<Term>,
    ) -> Result<bool, NoMemory>
        requires short { length body.now ≤ MAX_TEXT }
        requires occurs { OccursIn body.now side.now end }
        ensures { ReadsSide body.now side.now terms.new.items result }
    {
        let rest = after_blanks(side);
        let piece = before_blanks(rest);
        let start = (end - rest.len()) as u32;
        let guess = usize::from(self.guesses[slot(piece)]);
        if let Some(known) = terms_at(self.sides.as_slice(), guess, piece) {
            put_moved(known, start, terms)?;
            return Ok(true);
        }
        if !self.read(piece)? {
            return Ok(false);
        }
        put_moved(self.terms.as_slice(), start, terms)?;
        Ok(true)
    }
}

/// Does what `read_side` does. A side that is remembered is not read again.
#[inline(always)]
pub(crate) fn hold_side(
    body: &[u8],
    side: &[u8],
    end: usize,
    terms: &mut Vec<Term>,
    held: &mut Held,
) -> Result<bool, NoMemory>
    requires short { length body.now ≤ MAX_TEXT }
    requires occurs { OccursIn body.now side.now end }
    ensures { ReadsSide body.now side.now terms.new.items result }
{
    if side.len() < LEAST || MOST < side.len() {
        return read_side(body, side, end, terms);
    }
    held.terms_of(body, side, end, terms)
}
