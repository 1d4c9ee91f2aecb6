ghost use Rattle.std.specs.Prelude.{◌≡◌, ◌≤◌, ◌+◌, ◌-◌, length, OnOk};
ghost use Rattle.crn_reading.specs.Steps.{GoesOn};
ghost use Rattle.crn_indep_text.specs.Inner.LinesRead.{ReadsProof};

use crate::lines::{next_base, next_rows};
use crn_cert::{RankProof, Rows};
use crn_io::Source;
use crn_net::Network;
use crn_reading::{CheckStop, Reading};

/// The lines of the proof of a rank.
pub(crate) fn next_proof<S: Source>(
    source: &mut S,
    at: &mut Reading,
    net: &Network,
    rank: u32,
) -> Result<RankProof, CheckStop>
    requires goes { GoesOn at.old }
    requires rank { (rank ≤ length net.now.names) × (rank ≤ length net.now.reactions) }
    ensures step { ReadsProof net.now rank result at.old at.new
        (S.seen source.old) (S.seen source.new) }
    ensures goes { OnOk result (GoesOn at.new) }
    ensures line { OnOk result (at.new.line
        ≡ at.old.line + 1 + rank + (length net.now.reactions - rank)) }
{
    net.meets_definition();
    let species = net.species() as u32;
    let more = net.reactions() as u32 - rank;
    let mut duals = Rows::new(at.alloc)?;
    let mut combs = Rows::new(at.alloc)?;
    let base = next_base(source, at, net, rank)?;
    next_rows(source, at, 3, species, rank, &mut duals)?;
    next_rows(source, at, 4, rank + 1, more, &mut combs)?;
    Ok(RankProof { base, duals, combs })
}
