ghost use Rattle.std.specs.Prelude.{◌≡◌, ◌≤◌, ◌<◌, ◌+◌, ◌++◌, ◌↔◌, ◌⊎◌, [], ℤ, List, Some, IsTrue, length, map, MatchBool, OnErr, IfOk, IfErr, take, slice_index_or};
ghost use Rattle.crn_io.specs.declared.lines.TheConstants.{MAX_NUMBERS};
ghost use Rattle.crn_ctext.specs.Records.{Form as SeenForm, most_of};
ghost use Rattle.crn_ctext.specs.Expect.{IsExpectable, forms_of};
ghost use Rattle.crn_ctext.specs.Inner.Line.{SaysNumbers, capped};
ghost use Rattle.crn_ctext.specs.Inner.Shapes.{fields_of, HasBounds, IsJudged};
ghost use Rattle.crn_ctext.specs.Inner.Forms.{IsForm, tag};
ghost use Rattle.crn_ctext.specs.Inner.Tries.{IsAfter, SaysAfter, IsFit, IsTried, AreTried, IsSought, worst_of};

use crate::expect::Expect;
use crate::record_form::{Form, due_form};
use crate::record_numbers::{add, numbers};
use crate::record_shape::{Fit, judge};
use crate::same::are_same;
use crate::word::Word;
use crn_io::MAX_NUMBERS;
use crn_vec::Ints;

/// What trying a form on a line gave.
#[derive(Clone, Copy)]
pub(crate) enum Tried {
    /// The line has another word.
    OtherWord,
    /// It has the word, and no record of the form.
    Misfit,
    /// It is a record of the form, but for free numbers that are too great.
    TooWide,
    Fits,
}

// The bytes after these, if a space or nothing is there.
pub(crate) fn after<'a>(bytes: &'a [u8], first: &[u8]) -> Option<&'a [u8]>
    ensures { IsAfter bytes.now first.now result }
{
    if bytes.len() < first.len() {
        return None;
    }
    let (begin, rest) = bytes.split_at(first.len());
    if !are_same(begin, first) {
        return None;
    }
    if rest.is_empty() {
        return Some(rest);
    }
    if rest[0] != b' ' {
        return None;
    }
    Some(rest)
}

// Reads the numbers of a line after the place of a head's form.
fn read_numbers(line: &[u8], place: u32, into: &mut Ints) -> bool
    requires empty { into.old.list ≡ [] }
    requires room { MAX_NUMBERS ≤ into.old.spare }
    ensures numbers { MatchBool result
        ((zs : List ℤ) × SaysNumbers line.now zs × (into.new.list ≡ tag place ++ map capped zs))
        ((zs : List ℤ) → SaysNumbers line.now zs
        → length (tag place) + length zs ≤ MAX_NUMBERS → ⊥) }
    ensures spare { into.new.spare + length into.new.list ≡ into.old.spare }
{
    if place == 0 {
        return numbers(line, MAX_NUMBERS, into);
    }
    add(into, i128::from(place));
    numbers(line, MAX_NUMBERS - 1, into)
}

// How the numbers that were read fit the form.
fn judge_read(form: &Form, read: &Ints) -> Fit
    requires bounds { HasBounds form.now.shape }
    requires tag { length (tag form.now.place) ≤ length read.now.list }
    ensures { (zs : List ℤ) → read.now.list ≡ tag form.now.place ++ map capped zs
        → IsJudged result (fields_of form.now.shape) zs (map capped zs) }
{
    let read = read.as_slice();
    if form.place == 0 {
        return judge(&form.shape, read);
    }
    let (_, numbers) = read.split_at(1);
    judge(&form.shape, numbers)
}

// Reads the numbers of a line as the form has them. If they do not fit, the list is as before.
fn read_fit(form: &Form, line: &[u8], into: &mut Ints) -> Fit
    requires empty { into.old.list ≡ [] }
    requires room { MAX_NUMBERS ≤ into.old.spare }
    requires bounds { HasBounds form.now.shape }
    requires few { length (tag form.now.place) + most_of (fields_of form.now.shape) ≤ MAX_NUMBERS }
    ensures fit { IsFit result (fields_of form.now.shape) form.now.place
        (SaysNumbers line.now) into.new.list }
    ensures spare { into.new.spare + length into.new.list ≡ into.old.spare }
    ensures list { (result ≡ Fit.Fits) ⊎ (into.new.list ≡ []) }
{
    if !read_numbers(line, form.place, into) {
        into.clear();
        return Fit::Misfit;
    }
    match judge_read(form, into) {
        Fit::Fits => Fit::Fits,
        Fit::TooWide => {
            into.clear();
            Fit::TooWide
        }
        Fit::Misfit => {
            into.clear();
            Fit::Misfit
        }
    }
}

// Reads the words after the first, and the numbers, as the form has them.
fn read_words(form: &Form, rest: &[u8], into: &mut Ints) -> Fit
    requires empty { into.old.list ≡ [] }
    requires room { MAX_NUMBERS ≤ into.old.spare }
    requires bounds { HasBounds form.now.shape }
    requires few { length (tag form.now.place) + most_of (fields_of form.now.shape) ≤ MAX_NUMBERS }
    ensures fit { IsFit result (fields_of form.now.shape) form.now.place
        (SaysAfter form.now.words.now rest.now) into.new.list }
    ensures spare { into.new.spare + length into.new.list ≡ into.old.spare }
    ensures list { (result ≡ Fit.Fits) ⊎ (into.new.list ≡ []) }
{
    match after(rest, form.words) {
        None => Fit::Misfit,
        Some(line) => read_fit(form, line, into),
    }
}

// Tries one form on a line. If the line is not a record of it, the list is as before.
fn try_form(form: &Form, line: &[u8], into: &mut Ints) -> Tried
    requires empty { into.old.list ≡ [] }
    requires room { MAX_NUMBERS ≤ into.old.spare }
    requires bounds { HasBounds form.now.shape }
    requires few { length (tag form.now.place) + most_of (fields_of form.now.shape) ≤ MAX_NUMBERS }
    ensures tried { (seen : SeenForm) → IsForm form.now seen
        → IsTried result form.now.place seen line.now into.new.list }
    ensures spare { into.new.spare + length into.new.list ≡ into.old.spare }
    ensures list { (result ≡ Tried.Fits) ⊎ (into.new.list ≡ []) }
{
    match after(line, form.word.text()) {
        None => Tried::OtherWord,
        Some(rest) => match read_words(form, rest, into) {
            Fit::Misfit => Tried::Misfit,
            Fit::TooWide => Tried::TooWide,
            Fit::Fits => Tried::Fits,
        },
    }
}

// What is known of the forms that were tried, after one more.
pub(crate) fn worst(so_far: Tried, tried: Tried) -> Tried
    ensures { result ≡ worst_of so_far tried }
{
    match tried {
        Tried::TooWide => Tried::TooWide,
        Tried::Misfit => match so_far {
            Tried::TooWide => Tried::TooWide,
            _ => Tried::Misfit,
        },
        _ => so_far,
    }
}

/// Looks for a form that is due of which the line is a record; its numbers are read. If there is none, what trying all
/// of them gave.
pub(crate) fn seek(expect: &Expect, line: &[u8], into: &mut Ints) -> Result<Word, Tried>
    requires due { IsExpectable expect.now }
    requires empty { into.old.list ≡ [] }
    requires room { MAX_NUMBERS ≤ into.old.spare }
    ensures sought { IsSought result expect.now line.now into.new.list }
    ensures spare { into.new.spare + length into.new.list ≡ into.old.spare }
    ensures err { OnErr result (into.new.list ≡ []) }
{
    let mut so_far = Tried::OtherWord;
    let mut i: u32 = 0;
    while let Some(form) = due_form(expect, i) {
        match try_form(&form, line, into) {
            Tried::Fits => return Ok(form.word),
            tried => so_far = worst(so_far, tried),
        }
        i += 1;
    }
    Err(so_far)
}
