ghost use Rattle.std.specs.Prelude.{◌≡◌, ◌↔◌, ◌⊎◌, negsuc, IsTrue};
ghost use Rattle.std.specs.Option.{IsSome};
ghost use Rattle.crn_cert.specs.Questions.{Q4, IsYes, on, vector_given};
ghost use Rattle.crn_cert.specs.Valid.{signal_head};
ghost use Rattle.crn_check.specs.Check.{Judges};
ghost use Rattle.crn_check.specs.Facts.{HoldsOn};
ghost use Rattle.crn_check.specs.Inner.Tests.{DoListsFit, shape_tests};

use crate::facts::Facts;
use crate::fault::CheckFault;
use crate::kinds::{is_open, is_yes};
use crn_cert::Verdict;
use crn_ctree::check_signal;
use crn_net::Network;
use crn_shape::Shape;

// Whether a verdict gives a vector.
fn gives_vector(verdict: &Verdict) -> bool
    ensures { IsTrue result ↔ IsSome (vector_given verdict.now) }
{
    match verdict {
        Verdict::YesVec { .. } => true,
        _ => false,
    }
}

// Whether a signal may have this turn: if it is -1, the network is weakly reversible.
fn may_turn(facts: &Facts, turn: i32) -> bool
    requires { HoldsOn facts.now.earlier 4 }
    ensures { IsTrue result ↔ (turn ≡ negsuc 0 → IsYes (on facts.now.earlier Q4)) }
{
    turn != -1 || is_yes(facts.verdict(4))
}

// The test of a head on signals.
pub(crate) fn check_signal_head(facts: &Facts, verdict: &Verdict) -> Result<(), CheckFault>
    requires weak { HoldsOn facts.now.earlier 4 }
    requires confluence { HoldsOn facts.now.earlier 12 }
    ensures { Judges (signal_head facts.now.earlier verdict.now) result }
{
    let confluence = facts.verdict(12);
    let holds = match verdict {
        Verdict::YesSignal { turn, .. } => gives_vector(confluence) && may_turn(facts, *turn),
        Verdict::No => gives_vector(confluence),
        Verdict::NotApplicable => !gives_vector(confluence) && !is_open(confluence),
        _ => true,
    };
    if !holds {
        return Err(CheckFault { code: 37, part: 0 });
    }
    Ok(())
}

// The test of the lists of a signal, over a shape.
pub(crate) fn check_signal_rows(
    net: &Network,
    shape: &Shape,
    verdict: &Verdict,
) -> Result<(), CheckFault>
    requires { DoListsFit net.now shape.now verdict.now }
    ensures { Judges (shape_tests net.now shape.now verdict.now) result }
{
    let holds = match verdict {
        Verdict::YesSignal {
            shelves,
            mu,
            m,
            weights,
            ..
        } => check_signal(
            net,
            shape,
            shelves.as_slice(),
            mu.as_slice(),
            *m,
            weights.as_slice(),
        ),
        _ => true,
    };
    if !holds {
        return Err(CheckFault { code: 45, part: 4 });
    }
    Ok(())
}
