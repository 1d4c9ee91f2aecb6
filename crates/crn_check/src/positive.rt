ghost use Rattle.std.specs.Prelude.{◌≡◌, ◌↔◌, ◌<◌, ◌⊎◌, IsTrue, length, slice_index_or};
ghost use Rattle.crn_vec.specs.Network.{reaction_vector};
ghost use Rattle.crn_vec.specs.Vectors.{dot};
ghost use Rattle.crn_vec.specs.Rank.{combination_at};
ghost use Rattle.crn_vec.specs.Deficiency.{IsPositive, IsPositiveDependence, IsConservationLaw, vectors};
ghost use Rattle.crn_cert.specs.Questions.{Earlier, Q7, Q8};
ghost use Rattle.crn_cert.specs.Ranges.{AreFree};
ghost use Rattle.crn_cert.specs.Says.{RuleOutDependence, RuleOutConservation};
ghost use Rattle.crn_cert.specs.Formed.{IsFormedOf};
ghost use Rattle.crn_cert.specs.Valid.{dependence_rows, conservation_rows};
ghost use Rattle.crn_check.specs.Check.{Judges};

use crate::fault::CheckFault;
use crn_cert::{Proof, Verdict};
use crn_net::Network;
use crn_vec::{dot, times};

// Whether each number is at least 1.
fn are_positive(values: &[i128]) -> bool
    ensures { IsTrue result ↔ IsPositive values.now }
{
    for value in values {
        if *value < 1 {
            return false;
        }
    }
    true
}

/// The entry at a species of the combination of all reactions with these numbers.
pub fn amount_change(net: &Network, numbers: &[i128], s: usize) -> i128
    requires numbers { AreFree (length net.now.reactions) numbers.now }
    requires species { s < length net.now.names }
    ensures { result ≡ combination_at numbers.now (vectors net.now) s }
{
    let mut sum = 0;
    for r in 0..net.reactions() {
        sum += times(&numbers[r], &net.reaction_vector(r)[s]);
    }
    sum
}

/// The weight that a reaction, counted from 0, adds.
pub fn weight_change(net: &Network, weights: &[i128], r: usize) -> i128
    requires weights { AreFree (length net.now.names) weights.now }
    requires inside { r < length net.now.reactions }
    ensures { let ends = slice_index_or net.now.reactions r (0, 0) in
        result ≡ dot weights.now (reaction_vector net.now ends) }
{
    let _ = net.species();
    dot(weights, net.reaction_vector(r))
}

// Whether the numbers are positive and combine the reactions to zero.
fn is_dependence(net: &Network, numbers: &[i128]) -> bool
    requires { AreFree (length net.now.reactions) numbers.now }
    ensures { IsTrue result ↔ IsPositiveDependence net.now numbers.now }
{
    if !are_positive(numbers) {
        return false;
    }
    for s in 0..net.species() {
        if amount_change(net, numbers, s) != 0 {
            return false;
        }
    }
    true
}

/// Whether the weights are positive and each reaction conserves the total.
pub fn is_conservation(net: &Network, weights: &[i128]) -> bool
    requires { AreFree (length net.now.names) weights.now }
    ensures { IsTrue result ↔ IsConservationLaw net.now weights.now }
{
    if !are_positive(weights) {
        return false;
    }
    for r in 0..net.reactions() {
        if weight_change(net, weights, r) != 0 {
            return false;
        }
    }
    true
}

// Whether no reaction adds to the weight, and one takes from it.
fn rules_out_dependence(net: &Network, weights: &[i128]) -> bool
    requires { AreFree (length net.now.names) weights.now }
    ensures { IsTrue result ↔ RuleOutDependence net.now weights.now }
{
    let mut lowers = false;
    for r in 0..net.reactions() {
        let gain = weight_change(net, weights, r);
        if gain > 0 {
            return false;
        }
        if gain < 0 {
            lowers = true;
        }
    }
    lowers
}

/// Whether the combination increases no species, and decreases one.
pub fn rules_out_conservation(net: &Network, numbers: &[i128]) -> bool
    requires { AreFree (length net.now.reactions) numbers.now }
    ensures { IsTrue result ↔ RuleOutConservation net.now numbers.now }
{
    let mut lowers = false;
    for s in 0..net.species() {
        let gain = amount_change(net, numbers, s);
        if gain > 0 {
            return false;
        }
        if gain < 0 {
            lowers = true;
        }
    }
    lowers
}

// The test of a vector of positive dependence, or of multipliers that rule it out.
pub(crate) fn check_dependence(
    net: &Network,
    verdict: &Verdict,
    proof: &Proof,
) -> Result<(), CheckFault>
    requires { (earlier : Earlier) × IsFormedOf net.now earlier Q7 verdict.now proof.now }
    ensures { Judges (dependence_rows net.now verdict.now) result }
{
    let _ = proof;
    let holds = match verdict {
        Verdict::YesVec { vector } => is_dependence(net, vector.as_slice()),
        Verdict::NoVec { multipliers } => rules_out_dependence(net, multipliers.as_slice()),
        _ => true,
    };
    if !holds {
        return Err(CheckFault { code: 35, part: 1 });
    }
    Ok(())
}

// The test of a conservation law, or of multipliers that rule it out.
pub(crate) fn check_conservation(
    net: &Network,
    verdict: &Verdict,
    proof: &Proof,
) -> Result<(), CheckFault>
    requires { (earlier : Earlier) × IsFormedOf net.now earlier Q8 verdict.now proof.now }
    ensures { Judges (conservation_rows net.now verdict.now) result }
{
    let _ = proof;
    let holds = match verdict {
        Verdict::YesVec { vector } => is_conservation(net, vector.as_slice()),
        Verdict::NoVec { multipliers } => rules_out_conservation(net, multipliers.as_slice()),
        _ => true,
    };
    if !holds {
        return Err(CheckFault { code: 35, part: 1 });
    }
    Ok(())
}
