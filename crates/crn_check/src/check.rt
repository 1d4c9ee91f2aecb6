ghost use Rattle.std.specs.Prelude.{◌≡◌, [], ◌∷◌, ◌++◌, OnOk, OnErr};
ghost use Rattle.crn_vec.specs.Network.{IsNetwork};
ghost use Rattle.crn_cert.specs.Formed.{HeadMayBe, IsFormed};
ghost use Rattle.crn_cert.specs.Law.{IsTrueOrOpen};
ghost use Rattle.crn_cert.specs.Questions.{Q13};
ghost use Rattle.crn_cert.specs.Says.{IsTrueOf};
ghost use Rattle.crn_cert.specs.Valid.{head_tests, row_tests, tests_of};
ghost use Rattle.crn_cert.specs.Verdicts.{tight};
ghost use Rattle.crn_check.specs.Facts.{asked, HoldsNoneFrom, AreFactsOf};
ghost use Rattle.crn_check.specs.Check.{AsksForTree, IsBuilt, HoldsNeeds, HoldsNoSignal, HoldsNoTree, IsShapeFor, Judges, shown_by_tree};

use crate::concordance::check_concordance;
use crate::confluence::{check_confluence, check_confluence_head};
use crate::deficiency::{check_deficiency, check_deficiency_head};
use crate::facts::Facts;
use crate::fault::CheckFault;
use crate::linkage::check_linkage;
use crate::one::check_one_head;
use crate::positive::{check_conservation, check_dependence};
use crate::ranks::check_rank;
use crate::regular::{check_regular, check_regular_head};
use crate::reversible::{check_reverses, check_reversible_head};
use crate::signal::{check_signal_head, check_signal_rows};
use crate::strong::check_strong;
use crate::weak::check_weak_head;
use crate::zero::check_zero_head;
use crn_cert::{Answer, Verdict};
use crn_ctree::InfluenceTable;
use crn_net::Network;
use crn_shape::Shape;

/// The tests of the head of a verdict, before the lists of its later records are read. It takes no memory.
///
/// Questions are counted from 1. The facts hold verdicts accepted for this network. The lists of the verdict that are
/// in later records may be empty.
pub fn check_head(
    net: &Network,
    facts: &Facts,
    question: u32,
    verdict: &Verdict,
) -> Result<(), CheckFault>
    requires built { IsBuilt question }
    requires facts { AreFactsOf net.now facts.now }
    requires needs { HoldsNeeds facts.now.earlier question }
    requires head { HeadMayBe net.now facts.now.earlier (asked question) verdict.now }
    ensures { Judges (head_tests net.now facts.now.earlier (asked question) verdict.now) result }
{
    match question {
        3 => check_reversible_head(net, verdict),
        4 => check_weak_head(net, facts, verdict),
        6 => check_deficiency_head(net, facts, verdict),
        9 => check_zero_head(net, facts, verdict),
        10 => check_one_head(net, facts, verdict),
        11 => check_regular_head(net, facts, verdict),
        12 => check_confluence_head(facts, verdict),
        13 => check_signal_head(facts, verdict),
        _ => Ok(()),
    }
}

// The tests of the records below a head that are no tree and no signal.
fn check_rows(
    net: &Network,
    facts: &Facts,
    question: u32,
    answer: &Answer,
) -> Result<(), CheckFault>
    requires network { IsNetwork net.now }
    requires built { IsBuilt question }
    requires facts { AreFactsOf net.now facts.now }
    requires needs { HoldsNeeds facts.now.earlier question }
    requires formed { IsFormed net.now facts.now.earlier (asked question) answer.now }
    requires treeless { AsksForTree question → HoldsNoTree answer.now.proof }
    requires unsigned { question ≡ 13 → HoldsNoSignal answer.now.verdict }
    ensures { let now = answer.now in
        Judges (row_tests net.now facts.now.earlier (asked question) now.verdict now.proof) result }
{
    match question {
        1 => check_linkage(net, &answer.verdict, &answer.proof),
        2 => check_strong(net, &answer.verdict, &answer.proof),
        3 => check_reverses(net, &answer.verdict, &answer.proof),
        5 => check_rank(net, &answer.verdict, &answer.proof),
        6 => check_deficiency(net, facts, &answer.verdict, &answer.proof),
        7 => check_dependence(net, &answer.verdict, &answer.proof),
        8 => check_conservation(net, &answer.verdict, &answer.proof),
        11 => check_regular(net, facts, &answer.verdict, &answer.proof),
        12 => check_confluence(net, facts, &answer.verdict, &answer.proof),
        14 => check_concordance(net, InfluenceTable::Plain, &answer.verdict, &answer.proof),
        15 => check_concordance(net, InfluenceTable::Strong, &answer.verdict, &answer.proof),
        _ => Ok(()),
    }
}

/// Whether the answer to a question is valid. If it is, its verdict is true of the network or open, and the facts hold
/// it. It takes no memory.
///
/// Questions are counted from 1. The facts hold verdicts accepted for this network, on earlier questions only. An answer
/// that holds a tree is not for this call: a tree is checked node by node, and then `accept_tree` is for it. Nor is a
/// signal: `check_signal_answer` is for it. The fault names the first test that fails, the tests of the head first.
pub fn check_answer(
    net: &Network,
    facts: &mut Facts,
    question: u32,
    answer: &Answer,
) -> Result<(), CheckFault>
    requires built { IsBuilt question }
    requires facts { AreFactsOf net.now facts.old }
    requires needs { HoldsNeeds facts.old.earlier question }
    requires later { HoldsNoneFrom question facts.old.earlier }
    requires formed { IsFormed net.now facts.old.earlier (asked question) answer.now }
    requires treeless { AsksForTree question → HoldsNoTree answer.now.proof }
    requires unsigned { question ≡ 13 → HoldsNoSignal answer.now.verdict }
    ensures judged { let earlier = facts.old.earlier in
        Judges (tests_of net.now earlier (asked question) answer.now) result }
    ensures sound { OnOk result (IsTrueOrOpen net.now (asked question) answer.now.verdict) }
    ensures accepted { OnOk result (facts.new.earlier
        ≡ facts.old.earlier ++ (asked question, tight answer.now.verdict) ∷ []) }
    ensures same { OnErr result (facts.new ≡ facts.old) }
    ensures facts { AreFactsOf net.now facts.new }
{
    net.meets_definition();
    check_head(net, facts, question, &answer.verdict)?;
    check_rows(net, facts, question, answer)?;
    facts.accept(question, &answer.verdict);
    Ok(())
}

/// The same as `check_answer` for an answer to question 13 that holds a signal, by the shape of the network and of the
/// vector of question 12, or of its negative if that is the turn of the signal. It takes no memory.
///
/// The facts hold verdicts accepted for this network, on earlier questions only.
pub fn check_signal_answer(
    net: &Network,
    shape: &Shape,
    facts: &mut Facts,
    answer: &Answer,
) -> Result<(), CheckFault>
    requires facts { AreFactsOf net.now facts.old }
    requires needs { HoldsNeeds facts.old.earlier 13 }
    requires later { HoldsNoneFrom 13 facts.old.earlier }
    requires formed { IsFormed net.now facts.old.earlier Q13 answer.now }
    requires shape { IsShapeFor net.now facts.old.earlier answer.now.verdict shape.now }
    ensures judged { Judges (tests_of net.now facts.old.earlier Q13 answer.now) result }
    ensures sound { OnOk result (IsTrueOrOpen net.now Q13 answer.now.verdict) }
    ensures accepted { OnOk result (facts.new.earlier
        ≡ facts.old.earlier ++ (Q13, tight answer.now.verdict) ∷ []) }
    ensures same { OnErr result (facts.new ≡ facts.old) }
    ensures facts { AreFactsOf net.now facts.new }
{
    net.meets_definition();
    check_head(net, facts, 13, &answer.verdict)?;
    check_signal_rows(net, shape, &answer.verdict)?;
    facts.accept(13, &answer.verdict);
    Ok(())
}

// The verdict that trees show on a question.
fn shown_verdict(question: u32) -> Verdict
    requires { AsksForTree question }
    ensures { result ≡ shown_by_tree (asked question) }
{
    match question {
        13 => Verdict::No,
        _ => Verdict::Yes,
    }
}

/// Makes a verdict that trees show one of the facts, as `check_answer` does with other answers: a no to question 13, a
/// yes to question 14 or 15. It takes no memory.
///
/// Questions are counted from 1. The facts hold verdicts accepted for this network, on earlier questions only.
pub fn accept_tree(net: &Network, facts: &mut Facts, question: u32)
    requires tree { AsksForTree question }
    requires facts { AreFactsOf net.now facts.old }
    requires later { HoldsNoneFrom question facts.old.earlier }
    requires shown { IsTrueOf net.now (asked question) (shown_by_tree (asked question)) }
    ensures accepted { let q = asked question in
        facts.new.earlier ≡ facts.old.earlier ++ (q, shown_by_tree q) ∷ [] }
    ensures facts { AreFactsOf net.now facts.new }
{
    let _ = net;
    facts.accept(question, &shown_verdict(question));
}
