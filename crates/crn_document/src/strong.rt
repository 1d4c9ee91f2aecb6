ghost use Rattle.std.specs.Prelude.{◌≡◌, ◌<◌, ◌+◌, length, IfOk, OnOk};
ghost use Rattle.crn_vec.specs.declared.limits.TheConstants.{MAX_REACTIONS};
ghost use Rattle.crn_cert.specs.Questions.{Q2, on, terminal_of};
ghost use Rattle.crn_cert.specs.Valid.{strong, exits};
ghost use Rattle.crn_check.specs.Facts.{HoldsOn};
ghost use Rattle.crn_shape.specs.Pairs.{pairs_to};

use crn_cert::Verdict;
use crn_check::Facts;
use crn_io::NoMemory;
use crn_net::Network;
use crn_shape::is_pair;
use crn_vec::Nums;
use std::alloc::Global;

// The strong class of each complex, for each class a reaction that leaves it, 0 for a terminal one, and the number of
// terminal classes.
#[derive(Clone, Copy)]
pub(crate) struct Strong<'a> {
    pub(crate) labels: &'a [u32],
    pub(crate) exits: &'a [u32],
    pub(crate) terminal: u32,
}

// The strong classes, once their question is answered.
pub(crate) fn strong_of<'a>(facts: &'a Facts) -> Strong<'a>
    requires { HoldsOn facts.now.earlier 2 }
    ensures labels { result.labels.now ≡ strong facts.now.earlier }
    ensures exits { result.exits.now ≡ exits facts.now.earlier }
    ensures terminal { result.terminal ≡ terminal_of (on facts.now.earlier Q2) }
{
    match facts.verdict(2) {
        Verdict::Classes { label, .. } => Strong {
            labels: label.as_slice(),
            exits: &[],
            terminal: 0,
        },
        Verdict::Strong {
            terminal,
            label,
            exit,
            ..
        } => Strong {
            labels: label.as_slice(),
            exits: exit.as_slice(),
            terminal: *terminal,
        },
        _ => Strong {
            labels: &[],
            exits: &[],
            terminal: 0,
        },
    }
}

// Adds reaction r, counted from 0, if it is the least of a linked pair within a terminal class.
fn add_pair(net: &Network, classes: &Strong, r: usize, into: &mut Nums) -> Result<(), NoMemory>
    requires reaction { r < length net.now.reactions }
    requires few { r < MAX_REACTIONS }
    ensures { into.old.list ≡ pairs_to net.now classes.now.labels.now classes.now.exits.now r →
        OnOk result
        (into.new.list ≡ pairs_to net.now classes.now.labels.now classes.now.exits.now (r + 1)) }
{
    if is_pair(net, classes.labels, classes.exits, r) {
        into.push(r as u32 + 1)?;
        return Ok(());
    }
    Ok(())
}

// The linked pairs within terminal classes, each by its least reaction, counted from 1.
pub(crate) fn pairs_in(alloc: Global, net: &Network, classes: &Strong) -> Result<Nums, NoMemory>
    ensures { let n = length net.now.reactions in IfOk result
        (λ made. made.list ≡ pairs_to net.now classes.now.labels.now classes.now.exits.now n) }
{
    let mut pairs = Nums::with_room(alloc, net.reactions())?;
    for r in 0..net.reactions() {
        add_pair(net, classes, r, &mut pairs)?;
    }
    Ok(pairs)
}
