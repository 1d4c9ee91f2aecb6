ghost use Rattle.std.specs.Prelude.{◌≡◌, ◌≤◌, ℕ, length, sum, MatchOption};
ghost use Rattle.crn_vec.specs.declared.limits.TheConstants.{MAX_COMPLEXES};
ghost use Rattle.crn_vec.specs.Deficiency.{AreAtMostOne};
ghost use Rattle.crn_cert.specs.Verdicts.{tight};
ghost use Rattle.crn_cert.specs.Questions.{Earlier, Q6, Q10, on};
ghost use Rattle.crn_cert.specs.Says.{AreLinkageClasses, AreStrongClasses};
ghost use Rattle.crn_cert.specs.ClassTests.{DoLevelsFall};
ghost use Rattle.crn_cert.specs.Law.{IsTrueOrOpen};
ghost use Rattle.crn_cert.specs.Answered.{IsAnswer};
ghost use Rattle.crn_cert.specs.Given.{GiveClasses};
ghost use Rattle.crn_defi.specs.Inner.Terminals.{IsFewOrOpen, IsLarge, IsVerdictAfter, IsVerdictOn};

use crate::terminals::first_with_more;
use crn_cert::{Answer, Gap, Verdict};
use crn_graph::{LinkageData, StrongData};
use crn_net::Network;

// The least linkage class of deficiency 2 or more, counted from 1, and its deficiency.
fn first_large(deficiencies: &[u32]) -> Option<(u32, u32)>
    requires { length deficiencies.now ≤ MAX_COMPLEXES }
    ensures { MatchOption result (AreAtMostOne deficiencies.now)
        (λ found. IsLarge deficiencies.now found.0 found.1) }
{
    for k in 0..deficiencies.len() {
        if deficiencies[k] > 1 {
            return Some((k as u32 + 1, deficiencies[k]));
        }
    }
    None
}

// The sum of the deficiencies, each at most 1.
fn sum_of(deficiencies: &[u32]) -> u32
    requires small { AreAtMostOne deficiencies.now }
    requires few { length deficiencies.now ≤ MAX_COMPLEXES }
    ensures { result ≡ sum deficiencies.now }
{
    let mut sum = 0;
    for deficiency in deficiencies {
        sum += *deficiency;
    }
    sum
}

// The verdict if each linkage class has one terminal strong class: by the class deficiencies, and then by their sum.
fn by_deficiencies(total: u32, deficiencies: &[u32]) -> Verdict
    requires { length deficiencies.now ≤ MAX_COMPLEXES }
    ensures { IsVerdictOn total deficiencies.now result }
{
    if let Some((class, number)) = first_large(deficiencies) {
        return Verdict::NoClass { class, number };
    }
    let sum = sum_of(deficiencies);
    if sum == total {
        Verdict::Yes
    } else {
        Verdict::NoSum { sum }
    }
}

// The verdict if each linkage class has one terminal strong class: open if question 6 is.
fn after_terminals(q6: &Verdict) -> Verdict
    requires { IsFewOrOpen q6.now }
    ensures { IsVerdictAfter q6.now result }
{
    match q6 {
        Verdict::Deficiency { total, classes } => by_deficiencies(*total, classes.as_slice()),
        _ => Verdict::Unknown(Gap::Rests { question: 6 }),
    }
}

/// Question 10: the hypotheses of the Deficiency One Theorem hold, or the first that fails.
///
/// They are, in order: each linkage class has one terminal strong class, no linkage class has a deficiency above 1,
/// and the class deficiencies sum to the deficiency. If the first holds and question 6 is open, so is this one.
pub fn one_hypotheses(
    net: &Network,
    linkage: &LinkageData,
    strong: &StrongData,
    q6: &Verdict,
) -> Answer
    requires classes { AreLinkageClasses net.now linkage.now.count linkage.now.label.list }
    requires strong_classes { AreStrongClasses net.now strong.now.count strong.now.terminal
        strong.now.label.list strong.now.exit.list }
    requires levels { DoLevelsFall net.now strong.now.label.list strong.now.level.list }
    requires q6 { IsTrueOrOpen net.now Q6 q6.now }
    ensures { (budget : ℕ) (earlier : Earlier) →
        GiveClasses earlier linkage.now.label.list linkage.now.count strong.now.label.list
        strong.now.exit.list →
        on earlier Q6 ≡ tight q6.now →
        IsAnswer net.now budget earlier Q10 result }
{
    net.meets_definition();
    let split = first_with_more(
        strong.label.as_slice(),
        strong.exit.as_slice(),
        linkage.label.as_slice(),
        linkage.count,
    );
    let verdict = match split {
        Some((class, count)) => Verdict::NoTerminal { class, count },
        None => after_terminals(q6),
    };
    Answer::plain(verdict)
}
