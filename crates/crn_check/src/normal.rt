ghost use Rattle.std.specs.Prelude.{◌≡◌, ◌↔◌, IsTrue, length};
ghost use Rattle.std.specs.List.{AllByRecursion};
ghost use Rattle.crn_vec.specs.Elementary.{IsPrimitive};
ghost use Rattle.crn_vec.specs.Confluence.{IsNonzero, LeadsPositive};
ghost use Rattle.crn_cert.specs.ConfluenceTests.{DoTerminalsGather, least_from};
ghost use Rattle.crn_cert.specs.Ranges.{AreFree, IsNarrow};
ghost use Rattle.crn_cert.specs.Valid.{IsNormal};
ghost use Rattle.crn_check.specs.Facts.{AreFactsOf, HoldsOn};
ghost use Rattle.crn_check.specs.Inner.Spaces.{IsDivisor};

use crate::deficiency::count_in;
use crate::facts::Facts;
use crate::kinds::is_yes;
use crate::space::{class_sum, is_in_space};
use crate::terminals::exits_in;
use crate::weak::labels_in;
use crn_frac::gcd_of;
use crn_net::Network;

// The place of the first number that is not zero, and the length of the list if there is none.
pub(crate) fn least(numbers: &[i128]) -> usize
    ensures { result ≡ least_from 0 numbers.now }
{
    for k in 0..numbers.len() {
        if numbers[k] != 0 {
            return k;
        }
    }
    numbers.len()
}

// Whether some number is not zero.
fn is_nonzero(numbers: &[i128]) -> bool
    ensures { IsTrue result ↔ IsNonzero numbers.now }
{
    least(numbers) < numbers.len()
}

// Whether the first number that is not zero is positive.
fn leads_positive(numbers: &[i128]) -> bool
    requires { AllByRecursion IsNarrow numbers.now }
    ensures { IsTrue result ↔ LeadsPositive numbers.now }
{
    let first = least(numbers);
    first < numbers.len() && numbers[first] > 0
}

// The greatest common divisor of numbers.
fn divisor(numbers: &[i128]) -> u128
    requires { AllByRecursion IsNarrow numbers.now }
    ensures { IsDivisor numbers.now result }
{
    let mut g = 0;
    for x in numbers {
        g = gcd_of(x.unsigned_abs(), g);
    }
    g
}

// Whether the greatest common divisor of numbers is 1.
fn is_primitive(numbers: &[i128]) -> bool
    requires { AllByRecursion IsNarrow numbers.now }
    ensures { IsTrue result ↔ IsPrimitive numbers.now }
{
    divisor(numbers) == 1
}

// Whether the sum over each strong class without an exit is at least zero.
fn do_terminals_gather(net: &Network, strong: &[u32], exits: &[u32], numbers: &[i128]) -> bool
    requires labelled { length strong.now ≡ length net.now.complexes }
    requires numbers { AreFree (length net.now.complexes) numbers.now }
    ensures { IsTrue result ↔ DoTerminalsGather strong.now exits.now numbers.now }
{
    for m in 0..exits.len() {
        if exits[m] == 0 && class_sum(net, strong, m + 1, numbers) < 0 {
            return false;
        }
    }
    true
}

// Whether numbers are a primitive confluence vector, and, if the network is weakly reversible, the first that is not zero
// is positive.
pub(crate) fn is_normal(net: &Network, facts: &Facts, numbers: &[i128]) -> bool
    requires facts { AreFactsOf net.now facts.now }
    requires linkage { HoldsOn facts.now.earlier 1 }
    requires strong { HoldsOn facts.now.earlier 2 }
    requires weak { HoldsOn facts.now.earlier 4 }
    requires numbers { AreFree (length net.now.complexes) numbers.now }
    ensures { IsTrue result ↔ IsNormal net.now facts.now.earlier numbers.now }
{
    let linkage = facts.verdict(1);
    let strong = facts.verdict(2);
    is_in_space(net, labels_in(linkage), count_in(linkage), numbers)
        && is_nonzero(numbers)
        && do_terminals_gather(net, labels_in(strong), exits_in(strong), numbers)
        && is_primitive(numbers)
        && (!is_yes(facts.verdict(4)) || leads_positive(numbers))
}
