ghost use Rattle.std.specs.Prelude.{◌≡◌, ◌≤◌, length, IfOk};
ghost use Rattle.crn_vec.specs.declared.limits.TheConstants.{MAX_COMPLEXES};
ghost use Rattle.crn_vec.specs.Deficiency.{class_members};
ghost use Rattle.crn_defi.specs.Inner.ClassRanks.{reactions_of};

use crn_net::Network;
use crn_vec::NoMemory;
use std::alloc::Global;

/// The reactions of a linkage class in order, counted from 1.
pub(crate) fn reactions_of(
    alloc: Global,
    net: &Network,
    label: &[u32],
    class: u32,
) -> Result<Vec<u32>, NoMemory>
    requires { length label.now ≡ length net.now.complexes }
    ensures { IfOk result (λ made. made.items ≡ reactions_of net.now label.now class) }
{
    let mut members = Vec::with_capacity(alloc, net.reactions())?;
    for r in 0..net.reactions() {
        if label[net.reactant(r)] == class {
            members.push(r as u32 + 1)?;
        }
    }
    Ok(members)
}

/// The number of complexes of a linkage class.
pub(crate) fn complexes_of(label: &[u32], class: u32) -> u32
    requires { length label.now ≤ MAX_COMPLEXES }
    ensures { result ≡ length (class_members label.now class) }
{
    let mut count = 0;
    for own in label {
        if *own == class {
            count += 1;
        }
    }
    count
}
