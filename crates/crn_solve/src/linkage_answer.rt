ghost use Rattle.std.specs.Prelude.{◌≡◌};
ghost use Rattle.crn_vec.specs.Network.{Net, IsNetwork};
ghost use Rattle.crn_cert.specs.Questions.{Earlier, Q1, count_of, labels_of};
ghost use Rattle.crn_solve.specs.Inner.Answered.{IsDecidedAnswer};
ghost use Rattle.crn_solve.specs.Inner.ClassData.{AreLinkageData};

use crn_cert::{Answer, Proof, Verdict};
use crn_graph::LinkageData;

/// Question 1: the linkage classes, whose labels and forest are moved into the answer.
pub(crate) fn linkage_answer(classes: LinkageData) -> Answer
    ensures answer { (net : Net) (earlier : Earlier) → IsNetwork net → AreLinkageData net classes →
        IsDecidedAnswer net earlier Q1 result }
    ensures labels { labels_of result.verdict ≡ classes.label.list }
    ensures count { count_of result.verdict ≡ classes.count }
{
    Answer {
        verdict: Verdict::Classes {
            count: classes.count,
            label: classes.label,
        },
        proof: Proof::Forest {
            up: classes.up,
            depth: classes.depth,
        },
    }
}
