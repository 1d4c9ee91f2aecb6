ghost use Rattle.std.specs.Prelude.{◌≡◌, ◌+◌, ◌∷◌, [], OnOk};
ghost use Rattle.crn_ctext.specs.Kinds.{end_form};
ghost use Rattle.crn_ctext.specs.PartLines.{AreChoices, forms_in, texts_of};
ghost use Rattle.crn_reading.specs.Records.{ReadsPart};
ghost use Rattle.crn_reading.specs.Steps.{GoesOn};
ghost use Rattle.crn_robust_text.specs.Document.{case_forms, line_forms, rests_forms, words};

use crn_ctext::{Choice, Field};
use crn_io::Source;
use crn_net::Network;
use crn_reading::{CheckStop, Reading, next_part_record, small_run};

// The words of the lines.
fn words() -> [&'static [u8]; 6]
    ensures { texts_of result ≡ words }
{
    [b"line", b"yes", b"number", b"none", b"rests", b"end"]
}

// The next line, which has to be one of these. It answers the place of its word.
fn next_of<S: Source>(
    source: &mut S,
    at: &mut Reading,
    due: &[Choice],
    runs: &[Field],
) -> Result<u32, CheckStop>
    requires goes { GoesOn at.old }
    requires due { AreChoices words due.now runs.now }
    ensures step { ReadsPart words (forms_in words due.now runs.now) result at.old at.new
        (S.seen source.old) (S.seen source.new) }
    ensures goes { OnOk result (GoesOn at.new) }
    ensures line { OnOk result (at.new.line ≡ at.old.line + 1) }
{
    let table = words();
    next_part_record(source, at, &table, due, runs)
}

/// The line whether the confluence space is a line.
pub(crate) fn next_line<S: Source>(source: &mut S, at: &mut Reading) -> Result<u32, CheckStop>
    requires { GoesOn at.old }
    ensures step { ReadsPart words line_forms result at.old at.new
        (S.seen source.old) (S.seen source.new) }
    ensures goes { OnOk result (GoesOn at.new) }
    ensures line { OnOk result (at.new.line ≡ at.old.line + 1) }
{
    let runs = [small_run(1, 0, 1)];
    let due = [Choice {
        word: 0,
        first: 0,
        count: 1,
    }];
    next_of(source, at, &due, &runs)
}

/// The line of the verdict.
pub(crate) fn next_case<S: Source>(
    source: &mut S,
    at: &mut Reading,
    net: &Network,
) -> Result<u32, CheckStop>
    requires { GoesOn at.old }
    ensures step { ReadsPart words (case_forms net.now) result at.old at.new
        (S.seen source.old) (S.seen source.new) }
    ensures goes { OnOk result (GoesOn at.new) }
    ensures line { OnOk result (at.new.line ≡ at.old.line + 1) }
{
    net.meets_definition();
    let complexes = net.complexes() as u32;
    let runs = [
        small_run(1, 1, net.species() as u32),
        small_run(2, 1, complexes),
        small_run(1, 0, complexes),
    ];
    let due = [
        Choice {
            word: 1,
            first: 0,
            count: 2,
        },
        Choice {
            word: 2,
            first: 2,
            count: 1,
        },
        Choice {
            word: 3,
            first: 0,
            count: 0,
        },
    ];
    next_of(source, at, &due, &runs)
}

/// The line after blocks that leave the rank open.
pub(crate) fn next_rests<S: Source>(source: &mut S, at: &mut Reading) -> Result<u32, CheckStop>
    requires { GoesOn at.old }
    ensures step { ReadsPart words rests_forms result at.old at.new
        (S.seen source.old) (S.seen source.new) }
    ensures goes { OnOk result (GoesOn at.new) }
    ensures line { OnOk result (at.new.line ≡ at.old.line + 1) }
{
    let due = [Choice {
        word: 4,
        first: 0,
        count: 0,
    }];
    next_of(source, at, &due, &[])
}

/// The last line.
pub(crate) fn next_last<S: Source>(source: &mut S, at: &mut Reading) -> Result<u32, CheckStop>
    requires { GoesOn at.old }
    ensures step { ReadsPart words (end_form ∷ []) result at.old at.new
        (S.seen source.old) (S.seen source.new) }
    ensures goes { OnOk result (GoesOn at.new) }
{
    let due = [Choice {
        word: 5,
        first: 0,
        count: 0,
    }];
    next_of(source, at, &due, &[])
}
