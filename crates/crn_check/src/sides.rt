ghost use Rattle.std.specs.Prelude.{◌≡◌, ◌↔◌, ◌<◌, ◌+◌, IsTrue, length};
ghost use Rattle.crn_cert.specs.ClassTests.{AreSideMarks};
ghost use Rattle.crn_cert.specs.Parts.{AreSides};
ghost use Rattle.crn_check.specs.Check.{Judges};
ghost use Rattle.crn_check.specs.Inner.Ordered.{AreEqualBut, AreZeroOutside, ordered_tests};
ghost use Rattle.crn_shape.specs.Pairs.{pairs_to};

use crate::fault::CheckFault;
use crate::ways::is_between;
use crn_cert::Rows;
use crn_net::Network;
use crn_shape::is_pair;

// Whether marks are 0 at each complex of another class.
fn are_zero_outside(labels: &[u32], class: u32, marks: &[i128]) -> bool
    requires { length marks.now ≡ length labels.now }
    ensures { IsTrue result ↔ AreZeroOutside labels.now class marks.now }
{
    for c in 0..labels.len() {
        if labels[c] != class && marks[c] != 0 {
            return false;
        }
    }
    true
}

// Whether each reaction joins complexes of equal marks, but for those between y and z.
fn are_equal_but(net: &Network, y: usize, z: usize, marks: &[i128]) -> bool
    requires { length marks.now ≡ length net.now.complexes }
    ensures { IsTrue result ↔ AreEqualBut net.now y z marks.now }
{
    for r in 0..net.reactions() {
        let (a, b) = (net.reactant(r), net.product(r));
        if marks[a] != marks[b] && !is_between(y, z, a, b) {
            return false;
        }
    }
    true
}

// Whether marks are those of the side of the pair that a reaction, counted from 0, joins.
fn are_side_marks(net: &Network, labels: &[u32], r: usize, marks: &[i128]) -> bool
    requires labelled { length labels.now ≡ length net.now.complexes }
    requires inside { r < length net.now.reactions }
    requires marks { length marks.now ≡ length net.now.complexes }
    ensures { IsTrue result ↔ AreSideMarks net.now labels.now (r + 1) marks.now }
{
    let (y, z) = (net.reactant(r), net.product(r));
    marks[y] == 0
        && marks[z] == 1
        && are_zero_outside(labels, labels[y], marks)
        && are_equal_but(net, y, z, marks)
}

// The tests of the sides of all linked pairs within terminal classes.
pub(crate) fn check_sides(
    net: &Network,
    linkage: &[u32],
    strong: &[u32],
    exits: &[u32],
    sides: &Rows,
) -> Result<(), CheckFault>
    requires linkage { length linkage.now ≡ length net.now.complexes }
    requires sides { let reactions = length net.now.reactions in
        AreSides net.now (pairs_to net.now strong.now exits.now reactions) sides.now }
    ensures { let reactions = length net.now.reactions in
        Judges (ordered_tests (AreSideMarks net.now linkage.now) 1
        (pairs_to net.now strong.now exits.now reactions) sides.now) result }
{
    let mut done = 0;
    for r in 0..net.reactions() {
        if is_pair(net, strong, exits, r) {
            if !are_side_marks(net, linkage, r, sides.row(done)) {
                let part = 1 + done as u32;
                return Err(CheckFault { code: 35, part });
            }
            done += 1;
        }
    }
    Ok(())
}
