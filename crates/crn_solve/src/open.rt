ghost use Rattle.std.specs.Prelude.{◌≡◌};
ghost use Rattle.crn_cert.specs.Answers.{plain};
ghost use Rattle.crn_cert.specs.declared.answer.Gap.TheVariants.{Rests, Wide};
ghost use Rattle.crn_cert.specs.declared.answer.Verdict.TheVariants.{Unknown};

use crn_cert::{Answer, Gap, Verdict};
use crn_vec::Nums;

/// The open answer that names this question as the one that it rests on.
pub(crate) fn rests_on(question: u32) -> Answer
    ensures { result ≡ plain (Unknown (Rests question)) }
{
    Answer::plain(Verdict::Unknown(Gap::Rests { question }))
}

/// The open answer where a vector of this system for the network, named by its index and basis, is wide.
pub(crate) fn wide_answer(system: u32, index: u32, basis: Nums) -> Answer
    ensures { result ≡ plain (Unknown (Wide system 0 index basis)) }
{
    Answer::plain(Verdict::Unknown(Gap::Wide {
        system,
        class: 0,
        index,
        basis,
    }))
}
