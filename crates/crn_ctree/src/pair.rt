ghost use Rattle.std.specs.Prelude.{◌≡◌, ◌↔◌, ◌<◌, ◌^◌, length, map, unsigned_abs, IsTrue};
ghost use Rattle.crn_vec.specs.Concordance.{IsDiscordant, image, sign};
ghost use Rattle.crn_vec.specs.NetSystems.{reaction_system};
ghost use Rattle.crn_vec.specs.Vectors.{entry};
ghost use Rattle.crn_cert.specs.Ranges.{AreFree};
ghost use Rattle.crn_ctree.specs.Problem.{table_of};
ghost use Rattle.crn_ctree.specs.Inner.Pairs.{AreOfColumns};

use crate::kinds::column_kind;
use crate::problem::InfluenceTable;
use crn_net::Network;
use crn_vec::{MAX_SPECIES, Sign, has_kind, is_all_zero, sign_of, times};

// The entry at species s of the sum of the reaction vectors with these weights.
fn sum_at(net: &Network, weights: &[i128], s: usize) -> i128
    requires weights { AreFree (length net.now.reactions) weights.now }
    requires species { s < length net.now.names }
    ensures value { result ≡ entry (image (reaction_system net.now) weights.now) s }
    ensures small { unsigned_abs result < 2 ^ 127 }
{
    let mut sum = 0i128;
    for r in 0..net.reactions() {
        sum += times(&weights[r], &net.reaction_vector(r)[s]);
    }
    sum
}

// Its sign.
pub(crate) fn change_sign(net: &Network, weights: &[i128], s: usize) -> Sign
    requires weights { AreFree (length net.now.reactions) weights.now }
    requires species { s < length net.now.names }
    ensures { result ≡ sign (entry (image (reaction_system net.now) weights.now) s) }
{
    sign_of(sum_at(net, weights, s))
}

// Writes the signs of the sum of the reaction vectors with these weights.
fn put_signs(net: &Network, weights: &[i128], into: &mut [Sign])
    requires weights { AreFree (length net.now.reactions) weights.now }
    requires room { length into.old ≡ length net.now.names }
    ensures { into.new ≡ map sign (image (reaction_system net.now) weights.now) }
{
    for s in 0..net.species() {
        into[s] = change_sign(net, weights, s);
    }
}

// Whether the number of each reaction is of the kind that its column has at the prefix.
fn all_have_kinds(net: &Network, table: InfluenceTable, alpha: &[i128], prefix: &[Sign]) -> bool
    requires { length alpha.now ≡ length net.now.reactions }
    ensures { IsTrue result ↔ AreOfColumns (table_of net.now table) prefix.now alpha.now }
{
    for r in 0..net.reactions() {
        if !has_kind(column_kind(net, table, r, prefix), &alpha[r]) {
            return false;
        }
    }
    true
}

/// Whether two lists of numbers, one for each reaction, show the table discordant: alpha combines the
/// reactions to zero, the weights combine them to changes that are not all zero, and alpha goes with the changes.
pub fn check_pair(net: &Network, table: InfluenceTable, alpha: &[i128], weights: &[i128]) -> bool
    requires alpha { AreFree (length net.now.reactions) alpha.now }
    requires weights { AreFree (length net.now.reactions) weights.now }
    ensures { IsTrue result ↔ IsDiscordant (reaction_system net.now) (table_of net.now table)
        alpha.now weights.now }
{
    let mut room = [Sign::Zero; MAX_SPECIES];
    let (signs, _) = room.split_at_mut(net.species());
    put_signs(net, alpha, signs);
    if !is_all_zero(signs) {
        return false;
    }
    put_signs(net, weights, signs);
    if is_all_zero(signs) {
        return false;
    }
    all_have_kinds(net, table, alpha, signs)
}
