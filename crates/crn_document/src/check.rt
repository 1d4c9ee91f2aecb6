ghost use Rattle.crn_document.specs.Check.{CheckGives, HasFaultNumber, IsAnswered};

use crate::document::next_document;
use crn_cert::Verdicts;
use crn_io::Source;
use crn_net::Network;
use crn_reading::{CheckStop, begin};
use std::alloc::Global;

/// What a good document says: its network, and a verdict on each question that is answered, in their order.
#[derive(Drop)]
pub struct Accepted {
    pub net: Network,
    pub verdicts: Verdicts,
}

/// Reads a document to its end and checks it, or names its first fault.
///
/// It holds one line, the network, the shared lists and one block of the document at a time, and of a tree the prefix
/// that is due and, in version 1, up to 512 lines of cuts. So the memory that it takes has a bound that no document exceeds.
pub fn check_document<S: Source>(alloc: Global, source: &mut S) -> Result<Accepted, CheckStop>
    ensures gives { CheckGives result (S.seen source.old) (S.seen source.new) }
    ensures numbered { HasFaultNumber result }
    ensures answered { IsAnswered result (S.seen source.old) (S.seen source.new) }
{
    let mut at = begin(alloc)?;
    next_document(source, &mut at)
}
