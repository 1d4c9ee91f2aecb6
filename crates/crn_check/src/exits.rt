ghost use Rattle.std.specs.Prelude.{◌≡◌, ◌↔◌, ◌<◌, ◌+◌, IsTrue, length};
ghost use Rattle.crn_cert.specs.Ranges.{IsFrom, AreFrom};
ghost use Rattle.crn_cert.specs.ClassTests.{AreAllExits, GoesOut, zeros_in};
ghost use Rattle.crn_check.specs.Inner.Tests.{DoFinalsHold, DoExitsLeave};

use crn_net::Network;

// Whether a reaction, counted from 1, goes from class k to another.
fn goes_out(net: &Network, labels: &[u32], k: usize, reaction: u32) -> bool
    requires labelled { length labels.now ≡ length net.now.complexes }
    requires number { IsFrom 1 (length net.now.reactions) reaction }
    ensures { IsTrue result ↔ GoesOut net.now labels.now k reaction }
{
    let r = reaction as usize - 1;
    labels[net.reactant(r)] as usize == k && labels[net.product(r)] as usize != k
}

// Whether no reaction leaves a class whose exit is 0.
fn do_finals_hold(net: &Network, labels: &[u32], exits: &[u32]) -> bool
    requires { AreFrom (length net.now.complexes) 1 (length exits.now) labels.now }
    ensures { IsTrue result ↔ DoFinalsHold net.now labels.now exits.now }
{
    for r in 0..net.reactions() {
        let from = labels[net.reactant(r)];
        if from != labels[net.product(r)] && exits[from as usize - 1] == 0 {
            return false;
        }
    }
    true
}

// Whether each exit that is not 0 leaves its class.
fn do_exits_leave(net: &Network, labels: &[u32], exits: &[u32]) -> bool
    requires labelled { length labels.now ≡ length net.now.complexes }
    requires exits { AreFrom (length exits.now) 0 (length net.now.reactions) exits.now }
    ensures { IsTrue result ↔ DoExitsLeave net.now labels.now exits.now }
{
    for k in 0..exits.len() {
        if exits[k] != 0 && !goes_out(net, labels, k + 1, exits[k]) {
            return false;
        }
    }
    true
}

// Whether each class has the right exit.
pub(crate) fn are_exits(net: &Network, labels: &[u32], exits: &[u32]) -> bool
    requires labels { AreFrom (length net.now.complexes) 1 (length exits.now) labels.now }
    requires exits { AreFrom (length exits.now) 0 (length net.now.reactions) exits.now }
    ensures { IsTrue result ↔ AreAllExits net.now labels.now exits.now }
{
    do_finals_hold(net, labels, exits) && do_exits_leave(net, labels, exits)
}

// How many exits are 0.
pub(crate) fn zeros(exits: &[u32]) -> usize
    ensures { result ≡ zeros_in exits.now }
{
    let mut count = 0;
    for exit in exits {
        if *exit == 0 {
            count += 1;
        }
    }
    count
}
