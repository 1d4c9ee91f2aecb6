ghost use Rattle.std.specs.Prelude.{◌≡◌, ◌≤◌, ◌<◌, ◌+◌, ◌++◌, [], ◌∷◌, filter, length, OnOk};
ghost use Rattle.crn_vec.specs.Deficiency.{class_members};
ghost use Rattle.crn_vec.specs.declared.limits.TheConstants.{MAX_COMPLEXES, MAX_REACTIONS};
ghost use Rattle.crn_check.specs.Check.{IsBuilt};
ghost use Rattle.crn_document.specs.Facts.{IsKnownFor};
ghost use Rattle.crn_document.specs.Inner.Parts.{IsLinkage, is_in_class, members_of};

use crn_cert::Verdict;
use crn_check::Facts;
use crn_io::NoMemory;
use crn_net::Network;
use crn_vec::Nums;

// The number of linkage classes, and for each complex the number of its class, once their question is answered.
#[derive(Clone, Copy)]
pub(crate) struct Linkage<'a> {
    pub(crate) count: u32,
    pub(crate) labels: &'a [u32],
}

// The linkage classes, as they are known before the block of a question.
pub(crate) fn linkage_of<'a>(net: &Network, facts: &'a Facts, question: u32) -> Linkage<'a>
    requires built { IsBuilt question }
    requires known { IsKnownFor net.now question facts.now }
    ensures { IsLinkage facts.now.earlier result }
{
    if question == 1 {
        return Linkage {
            count: 0,
            labels: &[],
        };
    }
    match facts.verdict(1) {
        Verdict::Classes { count, label } => Linkage {
            count: *count,
            labels: label.as_slice(),
        },
        Verdict::Strong { count, label, .. } => Linkage {
            count: *count,
            labels: label.as_slice(),
        },
        _ => Linkage {
            count: 0,
            labels: &[],
        },
    }
}

// Whether reaction r, counted from 0, is in this linkage class; all are in class 0.
fn is_member(net: &Network, labels: &[u32], class: u32, r: usize) -> bool
    requires { r < length net.now.reactions }
    ensures { result ≡ is_in_class net.now labels.now class (r + 1) }
{
    if class == 0 {
        return true;
    }
    match labels.get(net.reactant(r)) {
        Some(label) => *label == class,
        None => false,
    }
}

// Adds reaction r, counted from 0, if it is in this linkage class.
fn add_member(
    net: &Network,
    labels: &[u32],
    class: u32,
    r: usize,
    into: &mut Nums,
) -> Result<(), NoMemory>
    requires reaction { r < length net.now.reactions }
    requires few { r < MAX_REACTIONS }
    ensures { let one = filter (λ j. is_in_class net.now labels.now class j) ((r + 1) ∷ []) in
        OnOk result (into.new.list ≡ into.old.list ++ one) }
{
    if is_member(net, labels, class, r) {
        into.push(r as u32 + 1)?;
    }
    Ok(())
}

// Lists the reactions of this linkage class, counted from 1, or all of them for class 0.
pub(crate) fn fill_members(
    net: &Network,
    labels: &[u32],
    class: u32,
    into: &mut Nums,
) -> Result<(), NoMemory>
    ensures { OnOk result (into.new.list ≡ members_of net.now labels.now class) }
{
    into.clear();
    for r in 0..net.reactions() {
        add_member(net, labels, class, r, into)?;
    }
    Ok(())
}

// The number of reactions of this linkage class.
pub(crate) fn count_members(net: &Network, labels: &[u32], class: u32) -> u32
    ensures { result ≡ length (members_of net.now labels.now class) }
{
    let mut count = 0;
    for r in 0..net.reactions() {
        if is_member(net, labels, class, r) {
            count += 1;
        }
    }
    count
}

// The number of complexes of this linkage class.
pub(crate) fn complexes_of(labels: &[u32], class: u32) -> u32
    requires few { length labels.now ≤ MAX_COMPLEXES }
    ensures count { result ≡ length (class_members labels.now class) }
    ensures few { result ≤ length labels.now }
{
    match labels.split_first() {
        None => 0,
        Some((label, rest)) => {
            // Compared before the call, so that nothing but a sum is left after it, and the calls become a loop.
            let is_there = *label == class;
            let count = complexes_of(rest, class);
            if is_there { count + 1 } else { count }
        }
    }
}
