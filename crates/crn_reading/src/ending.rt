ghost use Rattle.crn_ctext.specs.Course.{ends};
ghost use Rattle.crn_reading.specs.Ending.{EndStepIs};
ghost use Rattle.crn_reading.specs.Steps.{CanRead};

use crate::fault::CheckStop;
use crate::reading::Reading;
use crn_io::{Next, Source};

/// Nothing is left of the document.
pub fn no_more<S: Source>(source: &mut S, at: &mut Reading) -> Result<(), CheckStop>
    requires { CanRead at.old }
    ensures { EndStepIs ends tt result at.old (S.seen source.old) (S.seen source.new) }
{
    let line = at.line;
    match at.lines.next(source) {
        Next::End => Ok(()),
        Next::Line => Err(CheckStop::Rejected { code: 28, line }),
        Next::Last => Err(CheckStop::Rejected { code: 28, line }),
        Next::DocumentTooLong => Err(CheckStop::Rejected { code: 29, line }),
        Next::LineTooLong => Err(CheckStop::Rejected { code: 30, line }),
        Next::Failed => Err(CheckStop::Failed),
    }
}
