ghost use Rattle.std.specs.Prelude.{◌≡◌, ◌+◌, OnOk};
ghost use Rattle.crn_ctext.specs.Expect.{IsExpectable};
ghost use Rattle.crn_ctext.specs.Parts.{asks_part};
ghost use Rattle.crn_ctext.specs.PartLines.{AreChoices, forms_in, texts_of};
ghost use Rattle.crn_reading.specs.Steps.{GoesOn, StepIs};
ghost use Rattle.crn_reading.specs.Records.{asks_for, IsPartSaid, IsSaid};

use crate::fault::CheckStop;
use crate::reading::{Reading, next_line};
use crn_ctext::{Choice, Expect, Field, read_part, read_record};
use crn_io::Source;

/// The next line, which has to be the record that is due. Its numbers are put into the list, those of a head after the
/// place of its form.
pub fn next_record<S: Source>(
    source: &mut S,
    at: &mut Reading,
    expect: &Expect,
) -> Result<(), CheckStop>
    requires goes { GoesOn at.old }
    requires due { IsExpectable expect.now }
    ensures step { StepIs (asks_for expect.now at.old.line)
        (λ _ r. IsSaid expect.now at.new.numbers.list r)
        result at.old at.new (S.seen source.old) (S.seen source.new) }
    ensures goes { OnOk result (GoesOn at.new) }
    ensures line { OnOk result (at.new.line ≡ at.old.line + 1) }
    ensures version { at.new.version ≡ at.old.version }
{
    next_line(source, at, false)?;
    at.numbers.clear();
    match read_record(expect, at.lines.line(), &mut at.numbers) {
        Ok(_) => Ok(()),
        Err(code) => Err(CheckStop::Rejected {
            code: code.number(),
            line: at.line - 1,
        }),
    }
}

/// The next line, which has to be one that may stand next. It answers the place of its word, and its numbers are put into
/// the list.
pub fn next_part_record<S: Source>(
    source: &mut S,
    at: &mut Reading,
    words: &[&[u8]],
    due: &[Choice],
    runs: &[Field],
) -> Result<u32, CheckStop>
    requires goes { GoesOn at.old }
    requires due { AreChoices (texts_of words.now) due.now runs.now }
    ensures step { let forms = forms_in (texts_of words.now) due.now runs.now in
        StepIs (asks_part (texts_of words.now) at.old.line forms)
        (λ place r. IsPartSaid (texts_of words.now) forms place at.new.numbers.list r)
        result at.old at.new (S.seen source.old) (S.seen source.new) }
    ensures goes { OnOk result (GoesOn at.new) }
    ensures line { OnOk result (at.new.line ≡ at.old.line + 1) }
    ensures version { at.new.version ≡ at.old.version }
{
    next_line(source, at, false)?;
    at.numbers.clear();
    match read_part(words, due, runs, at.lines.line(), &mut at.numbers) {
        Ok(place) => Ok(place),
        Err(code) => Err(CheckStop::Rejected {
            code: code.number(),
            line: at.line - 1,
        }),
    }
}
