ghost use Rattle.std.specs.Prelude.{◌≡◌, ◌+◌, length, IfOk, OnOk};
ghost use Rattle.crn_io.specs.Lines.{early};
ghost use Rattle.crn_ctext.specs.Course.{due};
ghost use Rattle.crn_reading.specs.Steps.{CanRead, IsCounted, IsNew, StepIs};

use crate::fault::CheckStop;
use crn_io::{Lines, MAX_NUMBERS, Next, NoMemory, Source};
use crn_vec::Ints;
use std::alloc::Global;

/// How far a document was read: its lines so far, the number of the next line, counted from 1, and the numbers of the
/// last record. The version is 0 before the first line.
#[derive(Drop)]
pub struct Reading {
    pub alloc: Global,
    pub lines: Lines,
    pub line: u32,
    pub version: u32,
    pub numbers: Ints,
}

// The code of a line that is missing: of a tree's node, or of another line.
fn early(node: bool) -> u32
    ensures { result ≡ early node }
{
    if node { 43 } else { 27 }
}

/// The next line, which `at.lines` then shows: of a tree's node or another one.
pub fn next_line<S: Source>(source: &mut S, at: &mut Reading, node: bool) -> Result<(), CheckStop>
    requires reads { CanRead at.old }
    requires counted { IsCounted at.old }
    ensures step { StepIs (due node) (λ _ line. line ≡ at.new.lines.line) result at.old at.new
        (S.seen source.old) (S.seen source.new) }
    ensures reads { OnOk result (CanRead at.new) }
    ensures same { (at.new.version ≡ at.old.version) × (at.new.numbers ≡ at.old.numbers) }
    ensures line { OnOk result (at.new.line ≡ at.old.line + 1) }
    ensures taken { OnOk result
        (at.new.lines.taken ≡ at.old.lines.taken + length at.new.lines.line + 1) }
{
    let line = at.line;
    match at.lines.next(source) {
        Next::Line => {
            at.line += 1;
            Ok(())
        }
        Next::DocumentTooLong => Err(CheckStop::Rejected { code: 29, line }),
        Next::LineTooLong => Err(CheckStop::Rejected { code: 30, line }),
        Next::Last => Err(CheckStop::Rejected {
            code: early(node),
            line,
        }),
        Next::End => Err(CheckStop::Rejected {
            code: early(node),
            line,
        }),
        Next::Failed => Err(CheckStop::Failed),
    }
}

/// A reading at the beginning of a document.
pub fn begin(alloc: Global) -> Result<Reading, NoMemory>
    ensures { IfOk result IsNew }
{
    Ok(Reading {
        alloc,
        lines: Lines::new(alloc)?,
        line: 1,
        version: 0,
        numbers: Ints::with_room(alloc, MAX_NUMBERS)?,
    })
}
