ghost use Rattle.crn_ctext.specs.Blocks.{ReadOf};
ghost use Rattle.crn_reading.specs.Ending.{EndStepIs};
ghost use Rattle.crn_reading.specs.Steps.{GoesOn};
ghost use Rattle.crn_document.specs.Inner.Ending.{asks_end};

use crate::plain::{Plain, next_plain};
use crn_io::Source;
use crn_reading::{CheckStop, Reading, no_more};

// The last line, after which nothing is left of the document.
pub(crate) fn next_end<S: Source>(
    source: &mut S,
    at: &mut Reading,
    after_tree: bool,
) -> Result<(), CheckStop>
    requires goes { GoesOn at.old }
    ensures step { (read : ReadOf) →
        EndStepIs (asks_end at.old.version at.old.line after_tree read) read
        result at.old (S.seen source.old) (S.seen source.new) }
{
    next_plain(source, at, Plain::Finish, after_tree)?;
    no_more(source, at)
}
