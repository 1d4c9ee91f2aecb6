ghost use Rattle.std.specs.Prelude.{◌≡◌, ◌+◌, ◌∷◌, [], OnOk};
ghost use Rattle.crn_vec.specs.declared.limits.TheConstants.{MAX_BUDGET};
ghost use Rattle.crn_ctext.specs.Kinds.{end_form};
ghost use Rattle.crn_ctext.specs.PartLines.{AreChoices, forms_in, texts_of};
ghost use Rattle.crn_reading.specs.Steps.{GoesOn};
ghost use Rattle.crn_reading.specs.Records.{ReadsPart};
ghost use Rattle.crn_siphon_text.specs.Document.{cover_forms, law_forms, no_forms, node_forms, verdict_forms, words};

use crn_ctext::{Choice, Field};
use crn_io::Source;
use crn_net::Network;
use crn_reading::{CheckStop, Reading, free_run, next_part_record, rising_run, small_run};
use crn_vec::MAX_BUDGET;

// The words of the lines.
fn words() -> [&'static [u8]; 13]
    ensures { texts_of result ≡ words }
{
    [
        b"yes", b"no", b"wide", b"spent", b"vec", b"cut", b"siphon", b"mult", b"fork", b"bad",
        b"law", b"void", b"end",
    ]
}

// The next line, which has to be one of these. It answers the place of its word.
fn next_of<S: Source>(
    source: &mut S,
    at: &mut Reading,
    due: &[Choice],
    runs: &[Field],
) -> Result<u32, CheckStop>
    requires goes { GoesOn at.old }
    requires due { AreChoices words due.now runs.now }
    ensures step { ReadsPart words (forms_in words due.now runs.now) result at.old at.new
        (S.seen source.old) (S.seen source.new) }
    ensures goes { OnOk result (GoesOn at.new) }
    ensures line { OnOk result (at.new.line ≡ at.old.line + 1) }
{
    let table = words();
    next_part_record(source, at, &table, due, runs)
}

/// The line of the verdict.
pub(crate) fn next_verdict<S: Source>(
    source: &mut S,
    at: &mut Reading,
    net: &Network,
) -> Result<u32, CheckStop>
    requires { GoesOn at.old }
    ensures step { ReadsPart words (verdict_forms net.now) result at.old at.new
        (S.seen source.old) (S.seen source.new) }
    ensures goes { OnOk result (GoesOn at.new) }
    ensures line { OnOk result (at.new.line ≡ at.old.line + 1) }
{
    net.meets_definition();
    let species = net.species() as u32;
    let reactions = net.reactions() as u32;
    let all = species + reactions;
    let runs = [
        small_run(1, 1, 1),
        small_run(1, 1, all),
        rising_run(species, all),
        small_run(1, 2, 2),
        small_run(1, 1, all),
        rising_run(reactions, all),
        small_run(1, 1, MAX_BUDGET),
    ];
    let due = [
        Choice {
            word: 0,
            first: 0,
            count: 0,
        },
        Choice {
            word: 1,
            first: 0,
            count: 0,
        },
        Choice {
            word: 2,
            first: 0,
            count: 3,
        },
        Choice {
            word: 2,
            first: 3,
            count: 3,
        },
        Choice {
            word: 3,
            first: 6,
            count: 1,
        },
    ];
    next_of(source, at, &due, &runs)
}

/// The line of a law, after a yes.
pub(crate) fn next_law<S: Source>(
    source: &mut S,
    at: &mut Reading,
    net: &Network,
) -> Result<u32, CheckStop>
    requires { GoesOn at.old }
    ensures step { ReadsPart words (law_forms net.now) result at.old at.new
        (S.seen source.old) (S.seen source.new) }
    ensures goes { OnOk result (GoesOn at.new) }
    ensures line { OnOk result (at.new.line ≡ at.old.line + 1) }
{
    net.meets_definition();
    let runs = [free_run(net.species() as u32)];
    let due = [Choice {
        word: 4,
        first: 0,
        count: 1,
    }];
    next_of(source, at, &due, &runs)
}

/// The line after a no.
pub(crate) fn next_denial<S: Source>(
    source: &mut S,
    at: &mut Reading,
    net: &Network,
) -> Result<u32, CheckStop>
    requires { GoesOn at.old }
    ensures step { ReadsPart words (no_forms net.now) result at.old at.new
        (S.seen source.old) (S.seen source.new) }
    ensures goes { OnOk result (GoesOn at.new) }
    ensures line { OnOk result (at.new.line ≡ at.old.line + 1) }
{
    net.meets_definition();
    let runs = [
        free_run(net.reactions() as u32),
        small_run(net.species() as u32, 0, 1),
    ];
    let due = [
        Choice {
            word: 5,
            first: 0,
            count: 1,
        },
        Choice {
            word: 6,
            first: 1,
            count: 1,
        },
    ];
    next_of(source, at, &due, &runs)
}

/// The line of the numbers that cover a siphon.
pub(crate) fn next_multipliers<S: Source>(
    source: &mut S,
    at: &mut Reading,
    net: &Network,
) -> Result<u32, CheckStop>
    requires { GoesOn at.old }
    ensures step { ReadsPart words (cover_forms net.now) result at.old at.new
        (S.seen source.old) (S.seen source.new) }
    ensures goes { OnOk result (GoesOn at.new) }
    ensures line { OnOk result (at.new.line ≡ at.old.line + 1) }
{
    net.meets_definition();
    let runs = [free_run(net.reactions() as u32)];
    let due = [Choice {
        word: 7,
        first: 0,
        count: 1,
    }];
    next_of(source, at, &due, &runs)
}

/// The line of a node of a tree.
pub(crate) fn next_node<S: Source>(
    source: &mut S,
    at: &mut Reading,
    net: &Network,
) -> Result<u32, CheckStop>
    requires { GoesOn at.old }
    ensures step { ReadsPart words (node_forms net.now) result at.old at.new
        (S.seen source.old) (S.seen source.new) }
    ensures goes { OnOk result (GoesOn at.new) }
    ensures line { OnOk result (at.new.line ≡ at.old.line + 1) }
{
    net.meets_definition();
    let runs = [
        small_run(1, 1, net.reactions() as u32),
        free_run(net.species() as u32),
    ];
    let due = [
        Choice {
            word: 8,
            first: 0,
            count: 0,
        },
        Choice {
            word: 9,
            first: 0,
            count: 1,
        },
        Choice {
            word: 10,
            first: 1,
            count: 1,
        },
        Choice {
            word: 11,
            first: 2,
            count: 0,
        },
    ];
    next_of(source, at, &due, &runs)
}

/// The last line.
pub(crate) fn next_last<S: Source>(source: &mut S, at: &mut Reading) -> Result<u32, CheckStop>
    requires { GoesOn at.old }
    ensures step { ReadsPart words (end_form ∷ []) result at.old at.new
        (S.seen source.old) (S.seen source.new) }
    ensures goes { OnOk result (GoesOn at.new) }
{
    let due = [Choice {
        word: 12,
        first: 0,
        count: 0,
    }];
    next_of(source, at, &due, &[])
}
