ghost use Rattle.std.specs.Prelude.{◌≡◌, ◌≤◌, false, None, Some, length};
ghost use Rattle.std.specs.List.{list_any};
ghost use Rattle.crn_text.specs.Tokens.{tokens};
ghost use Rattle.crn_text.specs.Sides.{is_stray, sides};
ghost use Rattle.crn_text.specs.Faults.{is_empty, tokens_fault};
ghost use Rattle.crn_text.specs.Inner.Flaws.{term_flaw, place_flaw, FlawsPlace, side_flaw, sides_flaw, flaw_code};

use crate::arrow::split_side;
use crate::fault::TextCode;
use crate::place::quick_place;
use crate::side::{is_single_zero, read_term};
use crate::split::split_at_byte;
use crate::token::{from_first_mark, next_token};
use crn_net::Term;
use crn_vec::{MAX_NAME, MAX_TEXT};

/// What is wrong with a place for a term, or with a side by one of its places, in the order of the tests.
#[derive(Clone, Copy, PartialEq, Eq, PartialOrd, Ord)]
enum Flaw {
    NoToken,
    NoTerm,
    LongName,
    ZeroNumber,
    /// None of these.
    Other,
}

impl Flaw {
    // The code of a line's fault, if this is the first flaw of its sides.
    fn code(self) -> TextCode
        ensures { result ≡ flaw_code self }
    {
        match self {
            Flaw::NoToken => TextCode::EmptySide,
            Flaw::NoTerm => TextCode::BadName,
            Flaw::LongName => TextCode::NameTooLong,
            Flaw::ZeroNumber => TextCode::ZeroCoefficient,
            Flaw::Other => TextCode::CoefficientTooLarge,
        }
    }
}

// Whether some token is a stray mark.
fn has_stray(text: &[u8]) -> bool
    ensures { result ≡ list_any is_stray (tokens text.now) }
{
    let mut left = from_first_mark(text);
    'tokens: while let Some((token, rest)) = next_token(left) {
        if token.is_stray() {
            return true;
        }
        left = from_first_mark(rest);
    }
    false
}

// Whether a place for a term has no token.
fn is_vacant(place: &[u8]) -> bool
    ensures { result ≡ is_empty (tokens place.now) }
{
    next_token(place).is_none()
}

// The flaw of a place that holds a term.
fn flaw_of_term(term: &Term) -> Flaw
    ensures { result ≡ term_flaw term.now }
{
    if term.length as usize > MAX_NAME {
        return Flaw::LongName;
    }
    if term.count == 0 {
        return Flaw::ZeroNumber;
    }
    Flaw::Other
}

// The first flaw of a place for a term.
fn flaw_of_place(place: &[u8]) -> Flaw
    requires { length place.now ≤ MAX_TEXT }
    ensures { result ≡ place_flaw (tokens place.now) }
{
    match read_term(place, place.len()) {
        None if is_vacant(place) => Flaw::NoToken,
        None => Flaw::NoTerm,
        Some(term) => flaw_of_term(&term),
    }
}

// The first flaw of the place at the start of a text, and the part after the plus sign that ends the place.
fn next_flaw(text: &[u8]) -> (Flaw, Option<&[u8]>)
    requires { length text.now ≤ MAX_TEXT }
    ensures { FlawsPlace text.now result.0 result.1 }
{
    if let Some((term, after)) = quick_place(text, text.len()) {
        return (flaw_of_term(&term), after);
    }
    let (place, after) = split_at_byte(text, b'+');
    (flaw_of_place(place), after)
}

// The first flaw of a side: that of its places, unless the side is the single number zero.
fn flaw_of_side(side: &[u8]) -> Flaw
    requires { length side.now ≤ MAX_TEXT }
    ensures { result ≡ side_flaw (tokens side.now) }
{
    if is_single_zero(side) {
        return Flaw::Other;
    }
    let mut flaw = Flaw::Other;
    let mut left = Some(side);
    'places: while let Some(rest) = left {
        let (found, after) = next_flaw(rest);
        flaw = flaw.min(found);
        left = after;
    }
    flaw
}

// The first flaw of the sides of a line's body.
fn flaw_of_sides(body: &[u8]) -> Flaw
    requires short { length body.now ≤ MAX_TEXT }
    requires none { list_any is_stray (tokens body.now) ≡ false }
    ensures { result ≡ sides_flaw (sides (tokens body.now)) }
{
    let mut flaw = Flaw::Other;
    let mut left = Some(body);
    'sides: while let Some(rest) = left {
        let (side, after) = split_side(rest);
        flaw = flaw.min(flaw_of_side(side));
        left = after;
    }
    flaw
}

/// The first test that the body of a line fails, if it fails one. It takes no memory.
pub(crate) fn first_fault(body: &[u8]) -> TextCode
    requires short { length body.now ≤ MAX_TEXT }
    requires fails { tokens_fault (tokens body.now) ≡ None → ⊥ }
    ensures { tokens_fault (tokens body.now) ≡ Some result }
{
    if has_stray(body) {
        return TextCode::StrayMark;
    }
    let (_, after) = split_side(body);
    match after {
        None => TextCode::NoArrow,
        Some(_) => flaw_of_sides(body).code(),
    }
}
