ghost use Rattle.std.specs.Prelude.{◌≡◌};
ghost use Rattle.crn_vec.specs.Network.{Net, IsNetwork};
ghost use Rattle.crn_cert.specs.Questions.{Earlier, Q2, count_of, exits_of, labels_of};
ghost use Rattle.crn_solve.specs.Inner.Answered.{IsDecidedAnswer};
ghost use Rattle.crn_solve.specs.Inner.ClassData.{AreStrongData};

use crn_cert::{Answer, Proof, Verdict};
use crn_graph::StrongData;

/// Question 2: the strong classes, whose labels, exits, forests and levels are moved into the answer.
pub(crate) fn strong_answer(classes: StrongData) -> Answer
    ensures answer { (net : Net) (earlier : Earlier) → IsNetwork net → AreStrongData net classes →
        IsDecidedAnswer net earlier Q2 result }
    ensures labels { labels_of result.verdict ≡ classes.label.list }
    ensures count { count_of result.verdict ≡ classes.count }
    ensures exits { exits_of result.verdict ≡ classes.exit.list }
{
    Answer {
        verdict: Verdict::Strong {
            count: classes.count,
            terminal: classes.terminal,
            label: classes.label,
            exit: classes.exit,
        },
        proof: Proof::Strong {
            from: classes.from,
            from_depth: classes.from_depth,
            to: classes.to,
            to_depth: classes.to_depth,
            level: classes.level,
        },
    }
}
