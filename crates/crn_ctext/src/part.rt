ghost use Rattle.std.specs.Prelude.{◌≡◌, ◌≤◌, ◌+◌, ◌↔◌, ◌⊎◌, [], ℤ, List, IsTrue, OnErr, IfOk, IfErr, length, map};
ghost use Rattle.std.specs.List.{AllByRecursion};
ghost use Rattle.crn_vec.specs.Lists.{IsIn};
ghost use Rattle.crn_io.specs.declared.lines.TheConstants.{MAX_NUMBERS};
ghost use Rattle.crn_ctext.specs.Records.{BeginsWith, IsWord, Takes, AreOf, most_of};
ghost use Rattle.crn_ctext.specs.Kinds.{record_form};
ghost use Rattle.crn_ctext.specs.Expect.{code_of};
ghost use Rattle.crn_ctext.specs.PartLines.{AreChoices, IsRun, IsPartReadAs, IsPartRefusedBy, field_of, forms_in, texts_of};
ghost use Rattle.crn_ctext.specs.Inner.Line.{SaysNumbers, capped};
ghost use Rattle.crn_ctext.specs.Inner.Shapes.{IsJudged};
ghost use Rattle.crn_ctext.specs.Inner.Tries.{AreTried, IsFit, IsTried};
ghost use Rattle.crn_ctext.specs.Inner.PartTries.{IsPartSought};

use crate::fault::DocCode;
use crate::record::first_word;
use crate::record_numbers::numbers;
use crate::record_shape::{Fit, Range, are_narrow, is_basis, is_small};
use crate::record_try::{Tried, after, worst};
use crate::same::are_same;
use crn_io::MAX_NUMBERS;
use crn_vec::Ints;

/// A run of numbers: this many, from the least to the greatest; or free ones of any size below that of a certificate; or
/// ascending ones from 1 to the greatest.
#[derive(Clone, Copy)]
pub struct Field {
    pub count: u32,
    pub least: i128,
    pub greatest: i128,
    pub free: bool,
    pub ascending: bool,
}

/// A line that may stand next: the place of its word in the table, and of its first run, counted from 0, and how many runs it has.
#[derive(Clone, Copy)]
pub struct Choice {
    pub word: u32,
    pub first: u32,
    pub count: u32,
}

// Whether the numbers are a run, but for the size of free ones.
fn is_run(run: &Field, numbers: &[i128]) -> bool
    requires { IsRun run.now }
    ensures { IsTrue result ↔ Takes (field_of run.now) numbers.now }
{
    if run.free {
        return numbers.len() == run.count as usize;
    }
    if run.ascending {
        return is_basis(numbers, run.count, run.greatest as u32);
    }
    let range = Range {
        least: run.least,
        greatest: run.greatest,
    };
    is_small(numbers, run.count, &range)
}

// Whether the numbers are these runs one after another, but for the size of free ones.
fn are_runs(runs: &[Field], numbers: &[i128]) -> bool
    requires { AllByRecursion IsRun runs.now }
    ensures { IsTrue result ↔ AreOf Takes (map field_of runs.now) numbers.now }
{
    match runs {
        [] => numbers.is_empty(),
        [run, rest @ ..] => {
            let count = run.count as usize;
            if numbers.len() < count {
                return false;
            }
            let (first, others) = numbers.split_at(count);
            if !is_run(run, first) {
                return false;
            }
            are_runs(rest, others)
        }
    }
}

// How the numbers of a line, as they are held, fit the runs.
fn judge_runs(runs: &[Field], numbers: &[i128]) -> Fit
    requires { AllByRecursion IsRun runs.now }
    ensures { (zs : List ℤ) → numbers.now ≡ map capped zs
        → IsJudged result (map field_of runs.now) zs numbers.now }
{
    if !are_runs(runs, numbers) {
        return Fit::Misfit;
    }
    if are_narrow(numbers) {
        return Fit::Fits;
    }
    Fit::TooWide
}

// Reads the numbers after the word. If they do not fit, the list is as before.
fn read_runs(runs: &[Field], line: &[u8], into: &mut Ints) -> Fit
    requires runs { AllByRecursion IsRun runs.now }
    requires few { most_of (map field_of runs.now) ≤ MAX_NUMBERS }
    requires empty { into.old.list ≡ [] }
    requires room { MAX_NUMBERS ≤ into.old.spare }
    ensures fit { IsFit result (map field_of runs.now) 0 (SaysNumbers line.now) into.new.list }
    ensures spare { into.new.spare + length into.new.list ≡ into.old.spare }
    ensures list { (result ≡ Fit.Fits) ⊎ (into.new.list ≡ []) }
{
    if !numbers(line, MAX_NUMBERS, into) {
        into.clear();
        return Fit::Misfit;
    }
    match judge_runs(runs, into.as_slice()) {
        Fit::Fits => Fit::Fits,
        Fit::TooWide => {
            into.clear();
            Fit::TooWide
        }
        Fit::Misfit => {
            into.clear();
            Fit::Misfit
        }
    }
}

// Tries a word with these runs on a line. If the line is not one of them, the list is as before.
fn try_runs(word: &[u8], runs: &[Field], line: &[u8], into: &mut Ints) -> Tried
    requires word { IsWord word.now }
    requires runs { AllByRecursion IsRun runs.now }
    requires few { most_of (map field_of runs.now) ≤ MAX_NUMBERS }
    requires empty { into.old.list ≡ [] }
    requires room { MAX_NUMBERS ≤ into.old.spare }
    ensures tried { IsTried result 0 (record_form word.now (map field_of runs.now)) line.now
        into.new.list }
    ensures spare { into.new.spare + length into.new.list ≡ into.old.spare }
    ensures list { (result ≡ Tried.Fits) ⊎ (into.new.list ≡ []) }
{
    match after(line, word) {
        None => Tried::OtherWord,
        Some(rest) => match read_runs(runs, rest, into) {
            Fit::Misfit => Tried::Misfit,
            Fit::TooWide => Tried::TooWide,
            Fit::Fits => Tried::Fits,
        },
    }
}

// Whether this is one of the words.
fn is_word_of(words: &[&[u8]], word: &[u8]) -> bool
    ensures { IsTrue result ↔ IsIn word.now (texts_of words.now) }
{
    for other in words {
        if are_same(other, word) {
            return true;
        }
    }
    false
}

// Looks for a choice of which the line is a record; its numbers are read. If there is none, what trying all of them gave.
fn seek_choice(
    words: &[&[u8]],
    due: &[Choice],
    runs: &[Field],
    line: &[u8],
    into: &mut Ints,
) -> Result<u32, Tried>
    requires due { AreChoices (texts_of words.now) due.now runs.now }
    requires empty { into.old.list ≡ [] }
    requires room { MAX_NUMBERS ≤ into.old.spare }
    ensures sought { IsPartSought result (texts_of words.now) due.now runs.now line.now
        into.new.list }
    ensures spare { into.new.spare + length into.new.list ≡ into.old.spare }
    ensures err { OnErr result (into.new.list ≡ []) }
{
    let mut so_far = Tried::OtherWord;
    for choice in due {
        let (_, from) = runs.split_at(choice.first as usize);
        let (own, _) = from.split_at(choice.count as usize);
        match try_runs(words[choice.word as usize], own, line, into) {
            Tried::Fits => return Ok(choice.word),
            tried => so_far = worst(so_far, tried),
        }
    }
    Err(so_far)
}

/// Reads one line of a part, without its LF, against the lines that may stand next. It takes no memory.
///
/// It answers the place of the line's word in the table, and puts its numbers into the list.
pub fn read_part(
    words: &[&[u8]],
    due: &[Choice],
    runs: &[Field],
    line: &[u8],
    into: &mut Ints,
) -> Result<u32, DocCode>
    requires due { AreChoices (texts_of words.now) due.now runs.now }
    requires empty { into.old.list ≡ [] }
    requires room { MAX_NUMBERS ≤ into.old.spare }
    ensures ok { IfOk result (λ place. IsPartReadAs (texts_of words.now)
        (forms_in (texts_of words.now) due.now runs.now) line.now place into.new.list) }
    ensures spare { into.new.spare + length into.new.list ≡ into.old.spare }
    ensures err { IfErr result (λ code. IsPartRefusedBy (texts_of words.now)
        (forms_in (texts_of words.now) due.now runs.now) line.now (code_of code)
        × (into.new ≡ into.old)) }
{
    match seek_choice(words, due, runs, line, into) {
        Ok(place) => Ok(place),
        Err(Tried::OtherWord) => {
            if is_word_of(words, first_word(line)) {
                return Err(DocCode::WrongOrder);
            }
            Err(DocCode::UnknownWord)
        }
        Err(Tried::Misfit) => Err(DocCode::BadField),
        Err(Tried::TooWide) => Err(DocCode::NumberWide),
        Err(Tried::Fits) => unreachable!(),
    }
}
