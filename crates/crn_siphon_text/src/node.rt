ghost use Rattle.std.specs.Prelude.{◌≡◌, ◌<◌, ◌^◌, nat_abs, pos, unsigned_abs, slice_index_or};
ghost use Rattle.crn_ctext.specs.Records.{Record};
ghost use Rattle.crn_reading.specs.Records.{IsPartSaid};
ghost use Rattle.crn_siphon_text.specs.Document.{node_forms, node_of, words};
ghost use Rattle.crn_siphon_text.specs.Inner.NodesRead.{IsLeafRead};

use crate::weights::is_semi_law;
use crn_net::Network;
use crn_siphon_check::{is_void, is_zero_outside, stops};

// The absolute value of a small number.
fn small(value: i128) -> u32
    requires { unsigned_abs value < 2 ^ 32 }
    ensures { result ≡ nat_abs value }
{
    value.unsigned_abs() as u32
}

// The absolute value of the first number, which is small, and 0 if there is none.
fn first(numbers: &[i128]) -> u32
    requires { unsigned_abs (slice_index_or numbers.now 0 (pos 0)) < 2 ^ 32 }
    ensures { result ≡ nat_abs (slice_index_or numbers.now 0 (pos 0)) }
{
    match numbers.get(0) {
        Some(value) => small(*value),
        None => 0,
    }
}

/// Tests a node without children at the prefix, by the place of its word, and if it fails says its code.
pub(crate) fn test_leaf(
    numbers: &[i128],
    net: &Network,
    prefix: &[bool],
    place: u32,
) -> Result<(), u32>
    requires { (r : Record) × IsPartSaid words (node_forms net.now) place numbers.now r }
    ensures { (r : Record) → IsPartSaid words (node_forms net.now) place numbers.now r
        → IsLeafRead net.now prefix.now (node_of r) result }
{
    net.meets_definition();
    if place == 8 {
        return Err(54);
    }
    if place == 9 {
        if stops(net, prefix, first(numbers)) {
            return Ok(());
        }
        return Err(54);
    }
    if place == 10 {
        if !is_semi_law(net, numbers) {
            return Err(53);
        }
        if is_zero_outside(prefix, numbers) {
            return Ok(());
        }
        return Err(53);
    }
    if is_void(net, prefix) {
        return Ok(());
    }
    Err(54)
}
