ghost use Rattle.std.specs.Prelude.{◌≡◌, length};
ghost use Rattle.crn_cert.specs.Questions.{Earlier, Q2};
ghost use Rattle.crn_cert.specs.Ranges.{AreFrom};
ghost use Rattle.crn_cert.specs.Formed.{IsFormedOf};
ghost use Rattle.crn_cert.specs.Parts.{IsForest};
ghost use Rattle.crn_cert.specs.Valid.{strong_rows};
ghost use Rattle.crn_check.specs.Check.{Judges};
ghost use Rattle.crn_check.specs.Inner.Tests.{strong_trees, exit_tests};

use crate::exits::{are_exits, zeros};
use crate::fault::CheckFault;
use crate::labels::are_numbered;
use crate::levels::do_levels_fall;
use crate::trees::{Rule, are_trees};
use crn_cert::{Proof, Verdict};
use crn_net::Network;

// The tests of the labels and of the trees.
fn check_trees(
    net: &Network,
    count: u32,
    label: &[u32],
    from: &[u32],
    from_depth: &[u32],
    to: &[u32],
    to_depth: &[u32],
) -> Result<(), CheckFault>
    requires labelled { length label.now ≡ length net.now.complexes }
    requires from { IsForest net.now from.now from_depth.now }
    requires to { IsForest net.now to.now to_depth.now }
    ensures { Judges (strong_trees net.now count label.now from.now from_depth.now
        to.now to_depth.now) result }
{
    if !are_numbered(label, count) {
        return Err(CheckFault { code: 31, part: 1 });
    }
    if !are_trees(net, Rule::From, label, from, from_depth) {
        return Err(CheckFault { code: 31, part: 3 });
    }
    if !are_trees(net, Rule::To, label, to, to_depth) {
        return Err(CheckFault { code: 31, part: 5 });
    }
    Ok(())
}

// The tests of the levels and of the exits.
fn check_exits(
    net: &Network,
    terminal: u32,
    label: &[u32],
    level: &[u32],
    exit: &[u32],
) -> Result<(), CheckFault>
    requires levels { AreFrom (length net.now.complexes) 1 (length level.now) label.now }
    requires labels { AreFrom (length net.now.complexes) 1 (length exit.now) label.now }
    requires exits { AreFrom (length exit.now) 0 (length net.now.reactions) exit.now }
    ensures { Judges (exit_tests net.now terminal label.now level.now exit.now) result }
{
    if !do_levels_fall(net, label, level) {
        return Err(CheckFault { code: 31, part: 6 });
    }
    if !are_exits(net, label, exit) {
        return Err(CheckFault { code: 31, part: 7 });
    }
    if zeros(exit) != terminal as usize {
        return Err(CheckFault { code: 36, part: 7 });
    }
    Ok(())
}

// The tests of the records on strong classes.
pub(crate) fn check_strong(
    net: &Network,
    verdict: &Verdict,
    proof: &Proof,
) -> Result<(), CheckFault>
    requires { (earlier : Earlier)
        × IsFormedOf net.now earlier Q2 verdict.now proof.now }
    ensures { Judges (strong_rows net.now verdict.now proof.now) result }
{
    match (verdict, proof) {
        (
            Verdict::Strong {
                count,
                terminal,
                label,
                exit,
            },
            Proof::Strong {
                from,
                from_depth,
                to,
                to_depth,
                level,
            },
        ) => {
            check_trees(
                net,
                *count,
                label.as_slice(),
                from.as_slice(),
                from_depth.as_slice(),
                to.as_slice(),
                to_depth.as_slice(),
            )?;
            check_exits(
                net,
                *terminal,
                label.as_slice(),
                level.as_slice(),
                exit.as_slice(),
            )
        }
        _ => Ok(()),
    }
}
