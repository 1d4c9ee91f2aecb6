ghost use Rattle.std.specs.Prelude.{◌≡◌, ◌≤◌, ◌<◌, ◌+◌, ◌∷◌, [], length, slice_index_or, OnOk};
ghost use Rattle.crn_io.specs.declared.lines.TheConstants.{MAX_NUMBERS};
ghost use Rattle.crn_ctext.specs.Records.{Record, most_of};
ghost use Rattle.crn_ctext.specs.Kinds.{end_form, free_form};
ghost use Rattle.crn_ctext.specs.Documents.{IsOneOf};
ghost use Rattle.crn_ctext.specs.PartLines.{AreChoices, IsRun, field_of, forms_in, texts_of};
ghost use Rattle.crn_reading.specs.Steps.{GoesOn};
ghost use Rattle.crn_reading.specs.Records.{ReadsPart};
ghost use Rattle.crn_indep_text.specs.Document.{base_forms, depth_forms, first_forms, label_forms, up_forms, words};
ghost use Rattle.crn_indep_text.specs.Inner.LinesRead.{AddsRow, AreSmall, ReadsNums, ReadsRow, ReadsRows, run_forms};

use crate::numbers::nums_of;
use crn_cert::Rows;
use crn_ctext::{Choice, Field};
use crn_io::Source;
use crn_net::Network;
use crn_reading::{CheckStop, Reading, free_run, next_part_record, rising_run, small_run};
use crn_vec::{Ints, Nums};

// The words of the lines.
fn words() -> [&'static [u8]; 9]
    ensures { texts_of result ≡ words }
{
    [
        b"rank", b"wide", b"base", b"dual", b"comb", b"label", b"up", b"depth", b"end",
    ]
}

// The next line, which has to be one of these. It answers the place of its word.
fn next_of<S: Source>(
    source: &mut S,
    at: &mut Reading,
    due: &[Choice],
    runs: &[Field],
) -> Result<u32, CheckStop>
    requires goes { GoesOn at.old }
    requires due { AreChoices words due.now runs.now }
    ensures step { ReadsPart words (forms_in words due.now runs.now) result at.old at.new
        (S.seen source.old) (S.seen source.new) }
    ensures goes { OnOk result (GoesOn at.new) }
    ensures line { OnOk result (at.new.line ≡ at.old.line + 1) }
{
    let table = words();
    next_part_record(source, at, &table, due, runs)
}

/// The first line: a rank, or a wide vector.
pub(crate) fn next_first<S: Source>(
    source: &mut S,
    at: &mut Reading,
    net: &Network,
) -> Result<u32, CheckStop>
    requires { GoesOn at.old }
    ensures step { ReadsPart words (first_forms net.now) result at.old at.new
        (S.seen source.old) (S.seen source.new) }
    ensures goes { OnOk result (GoesOn at.new) }
    ensures line { OnOk result (at.new.line ≡ at.old.line + 1) }
{
    net.meets_definition();
    let species = net.species() as u32;
    let reactions = net.reactions() as u32;
    let all = species + reactions;
    let most = if species < reactions {
        species
    } else {
        reactions
    };
    let runs = [
        small_run(1, 1, most),
        small_run(1, 1, all),
        rising_run(species, all),
    ];
    let due = [
        Choice {
            word: 0,
            first: 0,
            count: 1,
        },
        Choice {
            word: 1,
            first: 1,
            count: 2,
        },
    ];
    next_of(source, at, &due, &runs)
}

// A line of one run, whose word has this place.
fn next_row<S: Source>(
    source: &mut S,
    at: &mut Reading,
    word: u32,
    run: Field,
) -> Result<(), CheckStop>
    requires goes { GoesOn at.old }
    requires word { word < length words }
    requires run { IsRun run }
    requires few { most_of (field_of run ∷ []) ≤ MAX_NUMBERS }
    ensures step { ReadsRow (run_forms word run) result at.old at.new
        (S.seen source.old) (S.seen source.new) }
    ensures goes { OnOk result (GoesOn at.new) }
    ensures line { OnOk result (at.new.line ≡ at.old.line + 1) }
{
    let runs = [run];
    let due = [Choice {
        word,
        first: 0,
        count: 1,
    }];
    next_of(source, at, &due, &runs)?;
    Ok(())
}

// A line of natural numbers, whose word has this place.
fn next_nums<S: Source>(
    source: &mut S,
    at: &mut Reading,
    word: u32,
    run: Field,
) -> Result<Nums, CheckStop>
    requires goes { GoesOn at.old }
    requires word { word < length words }
    requires run { IsRun run }
    requires few { most_of (field_of run ∷ []) ≤ MAX_NUMBERS }
    requires small { (r : Record) → IsOneOf (run_forms word run) r → AreSmall r.numbers }
    ensures step { ReadsNums (run_forms word run) result at.old at.new
        (S.seen source.old) (S.seen source.new) }
    ensures goes { OnOk result (GoesOn at.new) }
    ensures line { OnOk result (at.new.line ≡ at.old.line + 1) }
{
    next_row(source, at, word, run)?;
    let made = nums_of(at.alloc, at.numbers.as_slice())?;
    Ok(made)
}

/// The line of a base of this many reactions.
pub(crate) fn next_base<S: Source>(
    source: &mut S,
    at: &mut Reading,
    net: &Network,
    rank: u32,
) -> Result<Nums, CheckStop>
    requires goes { GoesOn at.old }
    requires rank { rank ≤ length net.now.reactions }
    ensures step { ReadsNums (base_forms net.now rank) result at.old at.new
        (S.seen source.old) (S.seen source.new) }
    ensures goes { OnOk result (GoesOn at.new) }
    ensures line { OnOk result (at.new.line ≡ at.old.line + 1) }
{
    net.meets_definition();
    next_nums(source, at, 2, rising_run(rank, net.reactions() as u32))
}

/// The line of the labels.
pub(crate) fn next_label<S: Source>(
    source: &mut S,
    at: &mut Reading,
    net: &Network,
) -> Result<Nums, CheckStop>
    requires { GoesOn at.old }
    ensures step { ReadsNums (label_forms net.now) result at.old at.new
        (S.seen source.old) (S.seen source.new) }
    ensures goes { OnOk result (GoesOn at.new) }
    ensures line { OnOk result (at.new.line ≡ at.old.line + 1) }
{
    net.meets_definition();
    let reactions = net.reactions() as u32;
    next_nums(source, at, 5, small_run(reactions, 1, reactions))
}

/// The line of the reactions from which others hang.
pub(crate) fn next_up<S: Source>(
    source: &mut S,
    at: &mut Reading,
    net: &Network,
) -> Result<Nums, CheckStop>
    requires { GoesOn at.old }
    ensures step { ReadsNums (up_forms net.now) result at.old at.new
        (S.seen source.old) (S.seen source.new) }
    ensures goes { OnOk result (GoesOn at.new) }
    ensures line { OnOk result (at.new.line ≡ at.old.line + 1) }
{
    net.meets_definition();
    let reactions = net.reactions() as u32;
    next_nums(source, at, 6, small_run(reactions, 0, reactions))
}

/// The line of the depths.
pub(crate) fn next_depth<S: Source>(
    source: &mut S,
    at: &mut Reading,
    net: &Network,
) -> Result<Nums, CheckStop>
    requires { GoesOn at.old }
    ensures step { ReadsNums (depth_forms net.now) result at.old at.new
        (S.seen source.old) (S.seen source.new) }
    ensures goes { OnOk result (GoesOn at.new) }
    ensures line { OnOk result (at.new.line ≡ at.old.line + 1) }
{
    net.meets_definition();
    let reactions = net.reactions() as u32;
    next_nums(source, at, 7, small_run(reactions, 0, reactions - 1))
}

// A line of this many free numbers, whose word has this place; they are added to the rows.
fn push_row<S: Source>(
    source: &mut S,
    at: &mut Reading,
    word: u32,
    width: u32,
    into: &mut Rows,
) -> Result<(), CheckStop>
    requires goes { GoesOn at.old }
    requires word { word < length words }
    requires few { width ≤ MAX_NUMBERS }
    ensures step { let forms = free_form (slice_index_or words word []) width ∷ [] in
        AddsRow forms width into.old into.new result at.old at.new
        (S.seen source.old) (S.seen source.new) }
    ensures goes { OnOk result (GoesOn at.new) }
    ensures line { OnOk result (at.new.line ≡ at.old.line + 1) }
{
    next_row(source, at, word, free_run(width))?;
    let row = Ints::from_slice(at.alloc, at.numbers.as_slice())?;
    into.push(row)?;
    Ok(())
}

/// So many lines of this many free numbers, whose word has this place; they are added to the rows.
pub(crate) fn next_rows<S: Source>(
    source: &mut S,
    at: &mut Reading,
    word: u32,
    width: u32,
    count: u32,
    into: &mut Rows,
) -> Result<(), CheckStop>
    requires goes { GoesOn at.old }
    requires word { word < length words }
    requires few { width ≤ MAX_NUMBERS }
    ensures step { let forms = free_form (slice_index_or words word []) width ∷ [] in
        ReadsRows forms width count into.old into.new result at.old at.new
        (S.seen source.old) (S.seen source.new) }
    ensures goes { OnOk result (GoesOn at.new) }
    ensures line { OnOk result (at.new.line ≡ at.old.line + count) }
{
    if count == 0 {
        return Ok(());
    }
    push_row(source, at, word, width, into)?;
    next_rows(source, at, word, width, count - 1, into)
}

/// The last line.
pub(crate) fn next_last<S: Source>(source: &mut S, at: &mut Reading) -> Result<u32, CheckStop>
    requires { GoesOn at.old }
    ensures step { ReadsPart words (end_form ∷ []) result at.old at.new
        (S.seen source.old) (S.seen source.new) }
    ensures goes { OnOk result (GoesOn at.new) }
    ensures line { OnOk result (at.new.line ≡ at.old.line + 1) }
{
    let due = [Choice {
        word: 8,
        first: 0,
        count: 0,
    }];
    next_of(source, at, &due, &[])
}
