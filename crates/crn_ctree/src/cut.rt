ghost use Rattle.std.specs.Prelude.{◌≡◌, ◌≢◌, ◌↔◌, ◌<◌, ◌≤◌, ℤ, pos, true, List, length, map, IsTrue};
ghost use Rattle.crn_vec.specs.declared.limits.TheConstants.{MAX_COORDINATES};
ghost use Rattle.crn_vec.specs.declared.signs.Sign.{Sign};
ghost use Rattle.crn_vec.specs.Concordance.{sign};
ghost use Rattle.crn_vec.specs.Elementary.{width};
ghost use Rattle.crn_vec.specs.NetSystems.{reaction_system};
ghost use Rattle.crn_vec.specs.Network.{Net};
ghost use Rattle.crn_vec.specs.Signals.{shelf_matrix};
ghost use Rattle.crn_vec.specs.Systems.{IsCut, MayWeigh, is_signed, kind_at};
ghost use Rattle.crn_vec.specs.Vectors.{HasSign, column, dot, entry};
ghost use Rattle.crn_cert.specs.Ranges.{AreFree};
ghost use Rattle.crn_ctree.specs.Inner.Kinds.{kinds_of, matrix_by, matrix_of, weights_of};
ghost use Rattle.crn_ctree.specs.Inner.Skips.{FitSkips};
ghost use Rattle.crn_vec.specs.Skips.{AreSkips};

use crate::kinds::kind;
use crate::problem::Problem;
use crn_net::Network;
use crn_shape::Shape;
use crn_vec::{
    MAX_SPECIES, Sign, Skips, counts, dot_past, may_weigh, opposite, sign_of, skips_of, times,
};

// A part of a prefix.
#[derive(Clone, Copy)]
pub(crate) enum Part {
    A,
    B,
}

// The system of a part: that of the reaction vectors, or that of the shelves.
#[derive(Clone, Copy)]
pub(crate) enum System<'a> {
    Reactions,
    Shelves(&'a Shape<'a>),
}

/// The system of a part of a problem.
pub(crate) fn system_of<'a>(problem: Problem<'a>, part: Part) -> System<'a>
    ensures matrix { (net : Net) → matrix_by net result ≡ matrix_of net problem.entry part }
    ensures kinds { (net : Net) (p : List Sign) → length (kinds_of net problem.entry part p)
        ≡ width (matrix_by net result) }
{
    match problem {
        Problem::Concordance(_) => System::Reactions,
        Problem::Signals(shape) => {
            let _ = shape.complexes();
            match part {
                Part::A => System::Shelves(shape),
                Part::B => System::Reactions,
            }
        }
    }
}

/// The number of rows of a system.
pub(crate) fn rows(net: &Network, system: System) -> usize
    ensures count { result ≡ length (matrix_by net.now system.entry).rows }
    ensures limit { result ≤ MAX_COORDINATES }
{
    match system {
        System::Reactions => net.species(),
        System::Shelves(shape) => shape.rows(),
    }
}

/// The number of columns of a system.
pub(crate) fn columns(net: &Network, system: System) -> usize
    ensures count { result ≡ (matrix_by net.now system.entry).cols }
    ensures limit { result ≤ MAX_COORDINATES }
{
    match system {
        System::Reactions => net.reactions(),
        System::Shelves(shape) => shape.species() + 1,
    }
}

// The sum of the products of multipliers and the entries of a reaction's vector.
fn reaction_sum(net: &Network, u: &[i128], skips: &[u8], r: usize) -> i128
    requires numbers { AreFree (length net.now.names) u.now }
    requires skips { AreSkips u.now skips.now }
    requires reaction { r < length net.now.reactions }
    ensures { result ≡ dot u.now (column (reaction_system net.now).rows r) }
{
    let _few = net.species();
    dot_past(u, net.reaction_vector(r), skips)
}

// The sum of the products of multipliers and the entries of a column of system 5.
fn shape_sum(shape: &Shape, u: &[i128], j: usize) -> i128
    requires numbers { AreFree (length (shelf_matrix shape.now).rows) u.now }
    requires place { j ≤ shape.now.species }
    ensures { result ≡ dot u.now (column (shelf_matrix shape.now).rows j) }
{
    let mut sum = 0i128;
    for row in 0..shape.rows() {
        sum += times(&u[row], &shape.entry(row, j));
    }
    sum
}

// The sum of the products of multipliers and the entries of a column of a system.
fn column_sum(net: &Network, system: System, u: &[i128], skips: &[u8], j: usize) -> i128
    requires numbers { AreFree (length (matrix_by net.now system).rows) u.now }
    requires skips { FitSkips system u.now skips.now }
    requires place { j < (matrix_by net.now system).cols }
    ensures { result ≡ dot u.now (column (matrix_by net.now system.entry).rows j) }
{
    match system {
        System::Reactions => reaction_sum(net, u, skips, j),
        System::Shelves(shape) => shape_sum(shape, u, j),
    }
}

// The places at which multipliers are not 0, if they are those of the system of the reaction vectors.
fn skips_by(net: &Network, system: System, u: &[i128]) -> Skips
    requires { AreFree (length (matrix_by net.now system).rows) u.now }
    ensures { FitSkips system.entry u.now result }
{
    let _few = net.species();
    match system {
        System::Reactions => skips_of(u),
        System::Shelves(_) => [0; MAX_SPECIES + 1],
    }
}

// The sign that (-uA, u) has at a coordinate.
fn weight(net: &Network, system: System, u: &[i128], skips: &[u8], k: usize) -> Sign
    requires numbers { AreFree (length (matrix_by net.now system).rows) u.now }
    requires skips { FitSkips system u.now skips.now }
    requires place { k < width (matrix_by net.now system) }
    ensures { HasSign result (entry (weights_of (matrix_by net.now system.entry) u.now) k) }
{
    let columns = columns(net, system);
    if k < columns {
        opposite(sign_of(column_sum(net, system, u, skips, k)))
    } else {
        sign_of(u[k - columns])
    }
}

/// Writes the signs that (-uA, u) has at the coordinates.
pub(crate) fn put_weights(net: &Network, system: System, u: &[i128], into: &mut [Sign])
    requires numbers { AreFree (length (matrix_by net.now system).rows) u.now }
    requires room { length into.old ≡ width (matrix_by net.now system) }
    ensures { into.new ≡ map sign (weights_of (matrix_by net.now system.entry) u.now) }
{
    let skips = skips_by(net, system, u);
    for k in 0..into.len() {
        into[k] = weight(net, system, u, &skips, k);
    }
}

fn is_nought(sign: Sign) -> bool
    ensures { (x : ℤ) → HasSign sign x → (IsTrue result ↔ (x ≡ pos 0)) }
{
    match sign {
        Sign::Zero => true,
        _ => false,
    }
}

// Whether numbers of this sign may be at a coordinate of a cut. A 0 may be at any, so no kind is formed for it.
fn fits(net: &Network, problem: Problem, part: Part, prefix: &[Sign], k: usize, sign: Sign) -> bool
    requires { k < width (matrix_of net.now problem part) }
    ensures { (x : ℤ) → HasSign sign x → (IsTrue result
        ↔ MayWeigh (kind_at (kinds_of net.now problem.entry part prefix.now) k) x) }
{
    is_nought(sign) || may_weigh(kind(net, problem, part, prefix, k), sign)
}

// Whether a coordinate has to be positive or negative, and numbers of this sign are not 0.
fn counts_at(
    net: &Network,
    problem: Problem,
    part: Part,
    prefix: &[Sign],
    k: usize,
    sign: Sign,
) -> bool
    requires { k < width (matrix_of net.now problem part) }
    ensures { (x : ℤ) → HasSign sign x → (IsTrue result
        ↔ ((is_signed (kind_at (kinds_of net.now problem.entry part prefix.now) k) ≡ true)
        × (x ≢ pos 0))) }
{
    !is_nought(sign) && counts(kind(net, problem, part, prefix, k), sign)
}

/// Whether the multipliers rule a part of a prefix out.
pub(crate) fn rules_out(
    net: &Network,
    problem: Problem,
    part: Part,
    prefix: &[Sign],
    u: &[i128],
) -> bool
    requires { AreFree (length (matrix_of net.now problem part).rows) u.now }
    ensures { IsTrue result
        ↔ IsCut (matrix_of net.now problem.entry part)
        (kinds_of net.now problem.entry part prefix.now) u.now }
{
    let system = system_of(problem, part);
    let skips = skips_by(net, system, u);
    let mut some = false;
    for k in 0..columns(net, system) + rows(net, system) {
        let sign = weight(net, system, u, &skips, k);
        if !fits(net, problem, part, prefix, k, sign) {
            return false;
        }
        if counts_at(net, problem, part, prefix, k, sign) {
            some = true;
        }
    }
    some
}
