ghost use Rattle.std.specs.Prelude.{◌≡◌, ◌≢◌};
ghost use Rattle.crn_vec.specs.declared.signs.Kind.{Kind};
ghost use Rattle.crn_sign.specs.Options.{asked_kind};

use crn_sign::{Asked, FREE, asked_of_sign};
use crn_vec::{Kind, Sign};

/// What requires a number of a kind.
pub(crate) fn asked_of_kind(kind: Kind) -> Asked
    requires { kind ≢ Kind.NonNeg }
    ensures { asked_kind result ≡ kind }
{
    match kind {
        Kind::Zero => asked_of_sign(Sign::Zero),
        Kind::Pos => asked_of_sign(Sign::Plus),
        Kind::Neg => asked_of_sign(Sign::Minus),
        Kind::Free => FREE,
        Kind::NonNeg => unreachable!(),
    }
}
