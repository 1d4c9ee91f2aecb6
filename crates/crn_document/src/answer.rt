ghost use Rattle.std.specs.Prelude.{◌≡◌, List, [], IfOk};
ghost use Rattle.crn_ctext.specs.Records.{Record};
ghost use Rattle.crn_ctext.specs.Meaning.{lists};
ghost use Rattle.crn_check.specs.Facts.{asked};
ghost use Rattle.crn_check.specs.Check.{IsBuilt};
ghost use Rattle.crn_document.specs.Inner.Answer.{AreSmall, verdict_of_head};
ghost use Rattle.crn_document.specs.Inner.Answers.{FitAnswer, proof_of_head};

use crate::block::Block;
use crate::kind::kind_at;
use crate::lists::Lists;
use crate::numbers::{later_numbers, number_of};
use crate::proof::proof_of;
use crate::verdict::verdict_of;
use crn_cert::{Answer, Verdict};
use crn_vec::NoMemory;
use std::alloc::Global;

/// The verdict with this head, without the lists of later records.
#[tactic(auto, using(crate::proofs::Fields::none_small))]
pub(crate) fn bare_verdict(alloc: Global, question: u32, head: &[i128]) -> Result<Verdict, NoMemory>
    requires built { IsBuilt question }
    requires small { AreSmall head.now }
    ensures { IfOk result (λ v. v ≡ verdict_of_head (asked question) head.now []) }
{
    let kind = kind_at(question, number_of(head, 0));
    let none = Lists::new(alloc)?;
    verdict_of(alloc, kind, later_numbers(head), &none)
}

/// The answer that a block says.
pub(crate) fn answer_of(alloc: Global, block: &Block) -> Result<Answer, NoMemory>
    requires built { IsBuilt block.now.question }
    requires small { AreSmall block.now.head.now }
    requires rows { let b = block.now in
        FitAnswer (asked b.question) b.head.now b.parts.now b.rows.now }
    ensures verdict { let b = block.now in
        (rs : List Record) → lists rs ≡ b.rows.now → IfOk result
        (λ a. a.verdict ≡ verdict_of_head (asked b.question) b.head.now rs) }
    ensures proof { let b = block.now in
        (rs : List Record) → lists rs ≡ b.rows.now → IfOk result
        (λ a. a.proof ≡ proof_of_head (asked b.question) b.parts.now b.head.now rs) }
{
    let kind = kind_at(block.question, number_of(block.head, 0));
    let numbers = later_numbers(block.head);
    Ok(Answer {
        verdict: verdict_of(alloc, kind, numbers, block.rows)?,
        proof: proof_of(
            alloc,
            kind,
            block.question,
            block.parts,
            numbers,
            block.rows,
        )?,
    })
}
