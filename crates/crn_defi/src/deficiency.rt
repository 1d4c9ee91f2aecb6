ghost use Rattle.std.specs.Prelude.{◌≡◌, ◌+◌, ℕ, length, IfOk, IfErr};
ghost use Rattle.crn_vec.specs.Rank.{IsRank};
ghost use Rattle.crn_vec.specs.Deficiency.{vectors};
ghost use Rattle.crn_cert.specs.Questions.{Earlier, Q6};
ghost use Rattle.crn_cert.specs.Says.{AreLinkageClasses};
ghost use Rattle.crn_cert.specs.Answered.{IsAnswer};
ghost use Rattle.crn_cert.specs.Given.{GiveRank};
ghost use Rattle.crn_defi.specs.Inner.ClassRanks.{AreClassRanks, IsStop};

use crate::class_rank::{ClassStop, class_rank};
use crn_cert::{Answer, Gap, Proof, RankList, Verdict};
use crn_graph::LinkageData;
use crn_net::Network;
use crn_vec::{NoMemory, Nums};
use std::alloc::Global;

// The deficiencies of the linkage classes in order, and the proofs of their ranks.
#[derive(Drop)]
struct ClassRanks {
    deficiencies: Nums,
    proofs: RankList,
}

// The deficiency of each linkage class in order.
fn class_ranks(alloc: Global, net: &Network, linkage: &LinkageData) -> Result<ClassRanks, ClassStop>
    requires { AreLinkageClasses net.now linkage.now.count linkage.now.label.list }
    ensures found { IfOk result (λ found.
        AreClassRanks net.now linkage.now.label.list 1 found.deficiencies.list found.proofs) }
    ensures count { IfOk result (λ found. length found.deficiencies.list ≡ linkage.now.count) }
    ensures stop { IfErr result
        (λ stop. IsStop net.now linkage.now.label.list linkage.now.count stop) }
{
    let mut deficiencies = Nums::with_room(alloc, linkage.count as usize)?;
    let mut proofs = RankList::new(alloc)?;
    for k in 0..linkage.count {
        let found = class_rank(alloc, net, linkage.label.as_slice(), k + 1)?;
        deficiencies.push(found.deficiency)?;
        proofs.push(found.proof)?;
    }
    Ok(ClassRanks {
        deficiencies,
        proofs,
    })
}

/// The deficiency of a network: the number of its complexes less that of its linkage classes less the rank.
pub(crate) fn deficiency(net: &Network, linkage: &LinkageData, rank: u32) -> u32
    requires classes { AreLinkageClasses net.now linkage.now.count linkage.now.label.list }
    requires rank { IsRank (vectors net.now) rank }
    ensures { result + linkage.now.count + rank ≡ length net.now.complexes }
{
    net.meets_definition();
    net.complexes() as u32 - linkage.count - rank
}

/// Question 6: the deficiency of the network and those of its linkage classes, with the proof of the rank of each class.
///
/// It is open only if the system of a linkage class has a wide vector, which the answer names with its class.
pub fn deficiencies(
    alloc: Global,
    net: &Network,
    linkage: &LinkageData,
    rank: u32,
) -> Result<Answer, NoMemory>
    requires classes { AreLinkageClasses net.now linkage.now.count linkage.now.label.list }
    requires rank { IsRank (vectors net.now) rank }
    ensures { IfOk result (λ answer. (budget : ℕ) (earlier : Earlier) →
        GiveRank earlier linkage.now.label.list linkage.now.count rank →
        IsAnswer net.now budget earlier Q6 answer) }
{
    net.meets_definition();
    let total = deficiency(net, linkage, rank);
    match class_ranks(alloc, net, linkage) {
        Ok(found) => Ok(Answer {
            verdict: Verdict::Deficiency {
                total,
                classes: found.deficiencies,
            },
            proof: Proof::Ranks(found.proofs),
        }),
        Err(
            ClassStop::Wide {
                class,
                index,
                basis,
            },
        ) => Ok(Answer::plain(Verdict::Unknown(Gap::Wide {
            system: 3,
            class,
            index,
            basis,
        }))),
        Err(ClassStop::NoMemory) => Err(NoMemory),
    }
}
