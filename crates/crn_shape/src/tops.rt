ghost use Rattle.std.specs.Prelude.{◌≡◌, ◌≤◌, ◌<◌, ℕ, length, map, slice_index, IfOk};
ghost use Rattle.crn_vec.specs.declared.limits.TheConstants.{MAX_COMPLEXES};
ghost use Rattle.crn_vec.specs.NetSignals.{AreTops};
ghost use Rattle.crn_cert.specs.Ranges.{IsFrom};
ghost use Rattle.crn_shape.specs.Sides.{AreClassesBy};
ghost use Rattle.crn_shape.specs.Inner.Tops.{top_for, zeros_below};

use crn_net::Network;
use crn_vec::NoMemory;
use std::alloc::Global;

// How many of the exits before a place are 0, which are those of terminal classes.
fn zeros_below(exits: &[u32], last: usize) -> usize
    requires { last ≤ length exits.now }
    ensures count { result ≡ zeros_below exits.now last }
    ensures few { result ≤ last }
{
    let mut count = 0;
    for k in 0..last {
        if exits[k] == 0 {
            count += 1;
        }
    }
    count
}

// The number of a strong class among the terminal ones, counted from 0, if it is one.
fn top_for(exits: &[u32], class: u32) -> Option<usize>
    requires some { 1 ≤ class }
    requires most { class ≤ length exits.now }
    ensures { result ≡ top_for exits.now class }
{
    let k = class as usize - 1;
    if exits[k] != 0 {
        return None;
    }
    Some(zeros_below(exits, k))
}

/// For each complex the number of its terminal strong class, if it is in one, and the number of these classes.
#[derive(Drop)]
pub struct Tops {
    pub of: Vec<Option<usize>>,
    pub count: usize,
}

// For each complex the number of its terminal strong class, if it is in one.
fn tops_of(alloc: Global, labels: &[u32], exits: &[u32]) -> Result<Vec<Option<usize>>, NoMemory>
    requires { (c : ℕ) → c < length labels.now
        → IsFrom 1 (length exits.now) (slice_index labels.now c) }
    ensures { IfOk result (λ made. made.items ≡ map (top_for exits.now) labels.now) }
{
    let mut tops = Vec::with_capacity(alloc, labels.len())?;
    for c in 0..labels.len() {
        tops.push(top_for(exits, labels[c]))?;
    }
    Ok(tops)
}

/// The terminal strong classes of a network, by labels and exits of its strong classes.
pub(crate) fn terminal_classes(
    alloc: Global,
    net: &Network,
    labels: &[u32],
    exits: &[u32],
) -> Result<Tops, NoMemory>
    requires { AreClassesBy net.now labels.now exits.now }
    ensures tops { IfOk result (λ made. AreTops net.now made.of.items made.count) }
    ensures few { IfOk result (λ made. made.count ≤ MAX_COMPLEXES) }
{
    let _ = net.complexes();
    Ok(Tops {
        of: tops_of(alloc, labels, exits)?,
        count: zeros_below(exits, exits.len()),
    })
}
