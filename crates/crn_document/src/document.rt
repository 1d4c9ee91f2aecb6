ghost use Rattle.crn_reading.specs.Steps.{IsNew};
ghost use Rattle.crn_document.specs.Inner.Courses.{IsWhole, whole_course};
ghost use Rattle.crn_reading.specs.Ending.{LastIs};

use crate::check::Accepted;
use crate::rest::next_rest;
use crn_io::Source;
use crn_reading::{CheckStop, Reading, next_count, next_network, next_version};

// A whole document.
pub(crate) fn next_document<S: Source>(
    source: &mut S,
    at: &mut Reading,
) -> Result<Accepted, CheckStop>
    requires new { IsNew at.old }
    ensures step { LastIs whole_course IsWhole result at.old
        (S.seen source.old) (S.seen source.new) }
{
    next_version(source, at)?;
    let count = next_count(source, at)?;
    let net = next_network(source, at, count)?;
    let verdicts = next_rest(source, at, &net)?;
    Ok(Accepted { net, verdicts })
}
