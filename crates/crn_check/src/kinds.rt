ghost use Rattle.std.specs.Prelude.{◌↔◌, IsTrue};
ghost use Rattle.crn_cert.specs.Questions.{IsNo, IsOpen, IsYes};

use crn_cert::Verdict;

// Whether a verdict is a yes of question 4, 7 or 11.
pub(crate) fn is_yes(verdict: &Verdict) -> bool
    ensures { IsTrue result ↔ IsYes verdict.now }
{
    match verdict {
        Verdict::Yes => true,
        Verdict::YesVec { .. } => true,
        _ => false,
    }
}

// Whether a verdict is a no of question 7 or 11.
pub(crate) fn is_no(verdict: &Verdict) -> bool
    ensures { IsTrue result ↔ IsNo verdict.now }
{
    match verdict {
        Verdict::NoVec { .. } => true,
        Verdict::NoTerminal { .. } => true,
        Verdict::NoDependence => true,
        Verdict::NoCycle { .. } => true,
        _ => false,
    }
}

// Whether a verdict is open.
pub(crate) fn is_open(verdict: &Verdict) -> bool
    ensures { IsTrue result ↔ IsOpen verdict.now }
{
    match verdict {
        Verdict::Unknown(_) => true,
        _ => false,
    }
}
