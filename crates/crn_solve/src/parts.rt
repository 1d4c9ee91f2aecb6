ghost use Rattle.std.specs.Prelude.{◌≡◌, ◌↔◌, IsTrue};
ghost use Rattle.crn_cert.specs.Questions.{IsOpen, IsYes, rank_of};

use crn_cert::Verdict;

/// The rank, if it is decided.
pub(crate) fn rank_of(verdict: &Verdict) -> Option<u32>
    ensures { result ≡ rank_of verdict.now }
{
    match verdict {
        Verdict::Rank { rank, .. } => Some(*rank),
        _ => None,
    }
}

/// Whether the verdict is a yes.
pub(crate) fn is_yes(verdict: &Verdict) -> bool
    ensures { IsTrue result ↔ IsYes verdict.now }
{
    match verdict {
        Verdict::Yes => true,
        Verdict::YesVec { .. } => true,
        _ => false,
    }
}

/// Whether the verdict is open.
pub(crate) fn is_open(verdict: &Verdict) -> bool
    ensures { IsTrue result ↔ IsOpen verdict.now }
{
    match verdict {
        Verdict::Unknown(_) => true,
        _ => false,
    }
}
