ghost use Rattle.std.specs.Prelude.{◌≡◌, ◌≤◌, ◌<◌, ◌+◌, ◌*◌, ◌^◌, ◌++◌, [], length, IfOk, OnOk};
ghost use Rattle.crn_vec.specs.Network.{IsNetwork};
ghost use Rattle.crn_vec.specs.declared.limits.TheConstants.{MAX_COMPLEXES};
ghost use Rattle.crn_io.specs.declared.lines.TheConstants.{MAX_NUMBERS};
ghost use Rattle.crn_check.specs.Check.{IsBuilt};
ghost use Rattle.crn_document.specs.Inner.Answer.{AreSmall};
ghost use Rattle.crn_document.specs.Inner.Parts.{class_part, class_parts, class_counts, parts_below, parts_by};

use crate::kind::kind_at;
use crate::linkage::{complexes_of, count_members};
use crate::numbers::{later_numbers, number_of, small};
use crn_cert::HeadKind;
use crn_io::NoMemory;
use crn_net::Network;
use crn_vec::Nums;
use std::alloc::Global;

// Some records below a head that prove the rank of a linkage class, or of the network for class 0, and how many
// reactions it has.
#[derive(Clone, Copy)]
pub(crate) struct Part {
    pub(crate) class: u32,
    pub(crate) rank: u32,
    pub(crate) count: u32,
}

// The records of the linkage class with this deficiency.
fn class_part(net: &Network, labels: &[u32], class: u32, deficiency: u32) -> Part
    requires { length labels.now ≤ MAX_COMPLEXES }
    ensures { result ≡ class_part net.now labels.now class deficiency }
{
    let complexes = complexes_of(labels, class);
    Part {
        class,
        rank: complexes.saturating_sub(1).saturating_sub(deficiency),
        count: count_members(net, labels, class),
    }
}

// Adds the records of the linkage classes with these deficiencies, the first of which is of this class.
fn push_classes(
    net: &Network,
    labels: &[u32],
    class: u32,
    numbers: &[i128],
    into: &mut Vec<Part>,
) -> Result<(), NoMemory>
    requires network { IsNetwork net.now }
    requires few { length labels.now ≤ MAX_COMPLEXES }
    requires small { AreSmall numbers.now }
    requires classes { class + length numbers.now < 2 ^ 31 }
    ensures { OnOk result (into.new.items
        ≡ into.old.items ++ class_parts net.now labels.now class numbers.now) }
{
    match numbers.split_first() {
        None => Ok(()),
        Some((number, rest)) => {
            into.push(class_part(net, labels, class, small(*number)))?;
            push_classes(net, labels, class + 1, rest, into)
        }
    }
}

// The ranks that the records below a head of this kind with these numbers prove.
fn parts_by(
    alloc: Global,
    net: &Network,
    labels: &[u32],
    kind: HeadKind,
    head: &[i128],
) -> Result<Vec<Part>, NoMemory>
    requires network { IsNetwork net.now }
    requires few { length labels.now ≤ MAX_COMPLEXES }
    requires small { AreSmall head.now }
    requires short { length head.now ≤ 2 * MAX_NUMBERS }
    ensures { IfOk result (λ parts. parts.items ≡ parts_by net.now labels.now kind head.now) }
{
    let mut parts = Vec::new(alloc);
    match kind {
        HeadKind::Rank => {
            parts.push(Part {
                class: 0,
                rank: number_of(head, 0),
                count: net.reactions() as u32,
            })?;
            Ok(parts)
        }
        HeadKind::Deficiency => {
            push_classes(net, labels, 1, later_numbers(head), &mut parts)?;
            Ok(parts)
        }
        _ => Ok(parts),
    }
}

// The ranks that the records below a head prove.
pub(crate) fn parts_of(
    alloc: Global,
    net: &Network,
    labels: &[u32],
    question: u32,
    head: &[i128],
) -> Result<Vec<Part>, NoMemory>
    requires built { IsBuilt question }
    requires network { IsNetwork net.now }
    requires few { length labels.now ≤ MAX_COMPLEXES }
    requires small { AreSmall head.now }
    requires short { length head.now ≤ 2 * MAX_NUMBERS }
    ensures { IfOk result (λ parts. parts.items
        ≡ parts_below net.now labels.now question head.now) }
{
    let kind = kind_at(question, number_of(head, 0));
    parts_by(alloc, net, labels, kind, later_numbers(head))
}

// Adds how many reactions each of this many linkage classes has, from this class on.
fn push_counts(
    net: &Network,
    labels: &[u32],
    class: u32,
    count: u32,
    into: &mut Nums,
) -> Result<(), NoMemory>
    requires network { IsNetwork net.now }
    requires few { class + count < 2 ^ 31 }
    ensures { OnOk result (into.new.list
        ≡ into.old.list ++ class_counts net.now labels.now class count) }
{
    if count == 0 {
        return Ok(());
    }
    let here = count_members(net, labels, class);
    into.push(here)?;
    push_counts(net, labels, class + 1, count - 1, into)
}

// How many reactions each of this many linkage classes has.
pub(crate) fn counts_of(
    alloc: Global,
    net: &Network,
    labels: &[u32],
    count: u32,
) -> Result<Nums, NoMemory>
    requires network { IsNetwork net.now }
    requires few { count ≤ MAX_COMPLEXES }
    ensures { IfOk result (λ made. made.list ≡ class_counts net.now labels.now 1 count) }
{
    let mut counts = Nums::with_room(alloc, count as usize)?;
    push_counts(net, labels, 1, count, &mut counts)?;
    Ok(counts)
}
