ghost use Rattle.std.specs.Prelude.{◌≡◌, ◌≤◌, IsTrue, ℕ, List, length, slice_index};
ghost use Rattle.std.specs.List.{list_all};
ghost use Rattle.crn_vec.specs.Network.{is_letter};
ghost use Rattle.crn_text.specs.Tokens.{is_blank, is_digit};
ghost use Rattle.crn_text.specs.Inner.Pieces.{OccursIn, ReadsPlace, Runs, Numbered, StartsNamed, EndsPlace, FindsName, FindsPlace, count_of};

use crate::bytes::{blanks, digits, is_letter_byte, short_name_bytes};
use crate::side::{number, read_term};
use crate::split::split_at_byte;
use crn_net::Term;
use crn_vec::MAX_TEXT;

// The blanks at the start of a text, and the rest.
#[inline(always)]
fn split_blanks(text: &[u8]) -> (&[u8], &[u8])
    ensures { Runs is_blank text.now result.0.now result.1.now }
{
    text.split_at(blanks(text))
}

// The digits at the start of a text, and the rest.
#[inline(always)]
fn split_digits(text: &[u8]) -> (&[u8], &[u8])
    ensures { Runs is_digit text.now result.0.now result.1.now }
{
    text.split_at(digits(text))
}

// Whether a text begins as a name.
#[inline(always)]
fn begins_with_letter(text: &[u8]) -> bool
    ensures some { IsTrue result → 1 ≤ length text.now }
    ensures letter { IsTrue result → IsTrue (is_letter (slice_index text.now 0)) }
{
    match text {
        [] => false,
        [first, ..] => is_letter_byte(*first),
    }
}

// The digits at the start of a text, and what follows them, without the blanks before and after them.
#[inline(always)]
fn split_number(text: &[u8]) -> (&[u8], &[u8])
    ensures { Numbered text.now result.0.now result.1.now }
{
    let (_, start) = split_blanks(text);
    let (digits, more) = split_digits(start);
    let (_, rest) = split_blanks(more);
    (digits, rest)
}

// Whether a text begins with a plus sign.
#[inline(always)]
fn begins_with_plus(text: &[u8]) -> bool {
    !text.is_empty() && text[0] == b'+'
}

// The blanks after a name, and the rest.
#[inline(always)]
fn split_blanks_after_name(text: &[u8]) -> (&[u8], &[u8])
    ensures { Runs is_blank text.now result.0.now result.1.now }
{
    // Where there are very many terms, most are joined without blanks.
    if begins_with_plus(text) {
        return text.split_at(0);
    }
    split_blanks(text)
}

// The name at the start of a text, and the rest; of a name above the limit perhaps a part.
#[inline(always)]
fn split_name(text: &[u8]) -> Option<(&[u8], &[u8])>
    requires some { 1 ≤ length text.now }
    requires letter { IsTrue (is_letter (slice_index text.now 0)) }
    ensures { StartsNamed text.now result }
{
    let size = short_name_bytes(text);
    // It never is, as the first byte is a letter.
    if size == 0 {
        return None;
    }
    Some(text.split_at(size))
}

// The part after a place that ends here, which is `None` after the last one.
#[inline(always)]
fn end_of_place(text: &[u8]) -> Option<Option<&[u8]>>
    ensures { EndsPlace text.now result }
{
    match text {
        [] => Some(None),
        [b'+', after @ ..] => Some(Some(after)),
        _ => None,
    }
}

// The number of a term with these digits before its name.
#[inline(always)]
fn count(digits: &[u8]) -> u32
    requires { IsTrue (list_all is_digit digits.now) }
    ensures { result ≡ count_of digits.now }
{
    if digits.is_empty() {
        return 1;
    }
    number(digits)
}

// The term of the name at the start of a text, if its place ends after it, and the part after the place. The text ends at
// `end` in the body.
#[inline(always)]
fn name_place(text: &[u8], end: usize, count: u32) -> Option<(Term, Option<&[u8]>)>
    requires short { end ≤ MAX_TEXT }
    requires inside { length text.now ≤ end }
    requires some { 1 ≤ length text.now }
    requires letter { IsTrue (is_letter (slice_index text.now 0)) }
    ensures { FindsName text.now end count result }
{
    let (name, back) = split_name(text)?;
    let (_, left) = split_blanks_after_name(back);
    let after = end_of_place(left)?;
    let term = Term {
        at: (end - text.len()) as u32,
        length: name.len() as u32,
        count,
    };
    Some((term, after))
}

/// The term in the place at the start of a text, and the part after the plus sign that ends the place. Nearly each place
/// with a term is found so, in one pass; `None` says nothing. The text ends at `end` in the body.
#[inline(always)]
pub(crate) fn quick_place(text: &[u8], end: usize) -> Option<(Term, Option<&[u8]>)>
    requires short { end ≤ MAX_TEXT }
    requires inside { length text.now ≤ end }
    ensures { (body : List ℕ) → OccursIn body text.now end → FindsPlace body text.now result }
{
    // Many places begin with the name.
    if begins_with_letter(text) {
        return name_place(text, end, 1);
    }
    let (digits, named) = split_number(text);
    if !begins_with_letter(named) {
        return None;
    }
    name_place(named, end, count(digits))
}

// The same of any place, token by token. It is not inlined, so that a loop over places keeps its values in registers.
#[inline(never)]
fn place_by_tokens(text: &[u8], end: usize) -> (Option<Term>, Option<&[u8]>)
    requires short { end ≤ MAX_TEXT }
    requires inside { length text.now ≤ end }
    ensures { (body : List ℕ) → OccursIn body text.now end →
        ReadsPlace body text.now result.0 result.1 }
{
    let (place, after) = split_at_byte(text, b'+');
    (read_term(place, end - text.len() + place.len()), after)
}

/// The term in the place at the start of a text, if it is one, and the part after the plus sign that ends the place. The
/// text ends at `end` in the body.
#[inline(always)]
pub(crate) fn next_place(text: &[u8], end: usize) -> (Option<Term>, Option<&[u8]>)
    requires short { end ≤ MAX_TEXT }
    requires inside { length text.now ≤ end }
    ensures { (body : List ℕ) → OccursIn body text.now end →
        ReadsPlace body text.now result.0 result.1 }
{
    if let Some((term, after)) = quick_place(text, end) {
        return (Some(term), after);
    }
    place_by_tokens(text, end)
}
