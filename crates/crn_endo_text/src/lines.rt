ghost use Rattle.std.specs.Prelude.{◌≡◌, ◌≤◌, ◌+◌, ◌∷◌, [], OnOk};
ghost use Rattle.crn_io.specs.declared.lines.TheConstants.{MAX_NUMBERS};
ghost use Rattle.crn_vec.specs.declared.limits.TheConstants.{MAX_BUDGET};
ghost use Rattle.crn_ctext.specs.Kinds.{end_form};
ghost use Rattle.crn_ctext.specs.PartLines.{AreChoices, forms_in, texts_of};
ghost use Rattle.crn_reading.specs.Steps.{GoesOn};
ghost use Rattle.crn_reading.specs.Records.{ReadsPart};
ghost use Rattle.crn_endo_check.specs.Slopes.{reactants};
ghost use Rattle.crn_endo_text.specs.Document.{node_forms, slope_forms, verdict_forms, words};

use crn_ctext::{Choice, Field};
use crn_endo_check::is_small_enough;
use crn_io::Source;
use crn_net::Network;
use crn_reading::{CheckStop, Reading, free_run, next_part_record, rising_run, small_run};
use crn_vec::MAX_BUDGET;

// The words of the lines.
fn words() -> [&'static [u8]; 10]
    ensures { texts_of result ≡ words }
{
    [
        b"yes", b"no", b"wide", b"spent", b"large", b"slope", b"split", b"flat", b"cuta", b"end",
    ]
}

// The next line, which has to be one of these. It answers the place of its word.
fn next_of<S: Source>(
    source: &mut S,
    at: &mut Reading,
    due: &[Choice],
    runs: &[Field],
) -> Result<u32, CheckStop>
    requires goes { GoesOn at.old }
    requires due { AreChoices words due.now runs.now }
    ensures step { ReadsPart words (forms_in words due.now runs.now) result at.old at.new
        (S.seen source.old) (S.seen source.new) }
    ensures goes { OnOk result (GoesOn at.new) }
    ensures line { OnOk result (at.new.line ≡ at.old.line + 1) }
{
    let table = words();
    next_part_record(source, at, &table, due, runs)
}

/// The line of the verdict of a network, by its reactant complexes.
pub(crate) fn next_verdict<S: Source>(
    source: &mut S,
    at: &mut Reading,
    net: &Network,
    given: &[usize],
) -> Result<u32, CheckStop>
    requires goes { GoesOn at.old }
    requires reactants { given.now ≡ reactants net.now }
    ensures step { ReadsPart words (verdict_forms net.now) result at.old at.new
        (S.seen source.old) (S.seen source.new) }
    ensures goes { OnOk result (GoesOn at.new) }
    ensures line { OnOk result (at.new.line ≡ at.old.line + 1) }
{
    net.meets_definition();
    let species = net.species() as u32;
    let reactions = net.reactions() as u32;
    let further = given.len().saturating_sub(1) as u32;
    let all = species + (reactions + reactions + further);
    let runs = [
        small_run(1, 1, reactions),
        small_run(1, 1, all),
        rising_run(species, all),
        small_run(1, 1, reactions),
        small_run(1, 1, MAX_BUDGET),
    ];
    let yes = Choice {
        word: 0,
        first: 0,
        count: 0,
    };
    let no = Choice {
        word: 1,
        first: 0,
        count: 1,
    };
    let wide = Choice {
        word: 2,
        first: 0,
        count: 3,
    };
    let spent = Choice {
        word: 3,
        first: 3,
        count: 2,
    };
    let large = Choice {
        word: 4,
        first: 0,
        count: 0,
    };
    if is_small_enough(net, given) {
        return next_of(source, at, &[yes, no, wide, spent, large], &runs);
    }
    next_of(source, at, &[no, wide, spent, large], &runs)
}

/// The line after a no.
pub(crate) fn next_slope<S: Source>(
    source: &mut S,
    at: &mut Reading,
    net: &Network,
) -> Result<u32, CheckStop>
    requires { GoesOn at.old }
    ensures step { ReadsPart words (slope_forms net.now) result at.old at.new
        (S.seen source.old) (S.seen source.new) }
    ensures goes { OnOk result (GoesOn at.new) }
    ensures line { OnOk result (at.new.line ≡ at.old.line + 1) }
{
    net.meets_definition();
    let runs = [free_run(net.species() as u32)];
    let due = [Choice {
        word: 5,
        first: 0,
        count: 1,
    }];
    next_of(source, at, &due, &runs)
}

/// The line of a node of a tree, whose cuts have this many numbers.
pub(crate) fn next_node_line<S: Source>(
    source: &mut S,
    at: &mut Reading,
    rows: u32,
) -> Result<u32, CheckStop>
    requires goes { GoesOn at.old }
    requires few { rows ≤ MAX_NUMBERS }
    ensures step { ReadsPart words (node_forms rows) result at.old at.new
        (S.seen source.old) (S.seen source.new) }
    ensures goes { OnOk result (GoesOn at.new) }
    ensures line { OnOk result (at.new.line ≡ at.old.line + 1) }
{
    let runs = [free_run(rows)];
    let due = [
        Choice {
            word: 6,
            first: 0,
            count: 0,
        },
        Choice {
            word: 7,
            first: 0,
            count: 0,
        },
        Choice {
            word: 8,
            first: 0,
            count: 1,
        },
    ];
    next_of(source, at, &due, &runs)
}

/// The last line.
pub(crate) fn next_last<S: Source>(source: &mut S, at: &mut Reading) -> Result<u32, CheckStop>
    requires { GoesOn at.old }
    ensures step { ReadsPart words (end_form ∷ []) result at.old at.new
        (S.seen source.old) (S.seen source.new) }
    ensures goes { OnOk result (GoesOn at.new) }
{
    let due = [Choice {
        word: 9,
        first: 0,
        count: 0,
    }];
    next_of(source, at, &due, &[])
}
