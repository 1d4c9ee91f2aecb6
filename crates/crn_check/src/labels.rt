ghost use Rattle.std.specs.Prelude.{◌≡◌, ◌↔◌, IsTrue, length};
ghost use Rattle.crn_cert.specs.Ranges.{IsFrom};
ghost use Rattle.crn_cert.specs.ClassTests.{AreNumbered, AreEven};
ghost use Rattle.crn_check.specs.Inner.Tests.{LeavesLabels};

use crn_net::Network;

/// Whether the labels count from 1 by first appearance, up to the count.
pub fn are_numbered(labels: &[u32], count: u32) -> bool
    ensures { IsTrue result ↔ AreNumbered labels.now count }
{
    let mut most = 0;
    for label in labels {
        if *label == 0 {
            return false;
        }
        if *label > most {
            if *label - most > 1 {
                return false;
            }
            most = *label;
        }
    }
    most == count
}

// Whether the complexes of each reaction have equal labels.
pub(crate) fn are_even(net: &Network, labels: &[u32]) -> bool
    requires { length labels.now ≡ length net.now.complexes }
    ensures { IsTrue result ↔ AreEven net.now labels.now }
{
    for r in 0..net.reactions() {
        if labels[net.reactant(r)] != labels[net.product(r)] {
            return false;
        }
    }
    true
}

// Whether a reaction, counted from 1, goes to a complex of another label.
pub(crate) fn leaves_label(net: &Network, labels: &[u32], reaction: u32) -> bool
    requires labelled { length labels.now ≡ length net.now.complexes }
    requires number { IsFrom 1 (length net.now.reactions) reaction }
    ensures { IsTrue result ↔ LeavesLabels net.now labels.now reaction }
{
    let r = reaction as usize - 1;
    labels[net.reactant(r)] != labels[net.product(r)]
}
