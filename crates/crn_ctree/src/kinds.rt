ghost use Rattle.std.specs.Prelude.{◌≡◌, ◌<◌, ◌+◌, [], length, map, slice_index_or};
ghost use Rattle.crn_vec.specs.Concordance.{column_kind as kind_of_column, kinds_a_of, kinds_b_of, product as product_of, sign};
ghost use Rattle.crn_vec.specs.Elementary.{width};
ghost use Rattle.crn_vec.specs.Network.{Net};
ghost use Rattle.crn_vec.specs.NetSystems.{reaction_system};
ghost use Rattle.crn_vec.specs.Systems.{kind_at};
ghost use Rattle.crn_vec.specs.Vectors.{HasSign};
ghost use Rattle.crn_ctree.specs.Problem.{problem_of, table_of};
ghost use Rattle.crn_ctree.specs.Inner.Kinds.{column_from, kinds_of, matrix_of, opposite_kind};

use crate::cut::Part;
use crate::problem::{InfluenceTable, Problem};
use crn_net::Network;
use crn_shape::row_kind;
use crn_vec::{Kind, Sign, is_nought, kind_of_sum, product, sign_of};

pub(crate) fn sign_at(number: &i128) -> Sign
    ensures { HasSign result number.now }
{
    sign_of(*number)
}

// The sign of a number times an option.
fn product_sign(number: &i128, option: Sign) -> Sign
    ensures { result ≡ product_of (sign number.now) option }
{
    product(sign_at(number), option)
}

// The kind of a column whose signs are those of these numbers, after species that raised or lowered it.
fn kind_from(raised: bool, lowered: bool, numbers: &[i128], prefix: &[Sign]) -> Kind
    ensures { result ≡ column_from raised lowered (map sign numbers.now) prefix.now }
{
    match numbers {
        [] => kind_of_sum(raised, lowered),
        [number, numbers @ ..] => match prefix {
            [] => {
                if !is_nought(number) {
                    return Kind::Free;
                }
                kind_from(raised, lowered, numbers, prefix)
            }
            [option, prefix @ ..] => match product_sign(number, *option) {
                Sign::Plus => kind_from(true, lowered, numbers, prefix),
                Sign::Minus => kind_from(raised, true, numbers, prefix),
                Sign::Zero => kind_from(raised, lowered, numbers, prefix),
            },
        },
    }
}

/// The kind of the opposite signs.
pub(crate) fn opposite_kind(kind: Kind) -> Kind
    ensures { result ≡ opposite_kind kind }
{
    match kind {
        Kind::Pos => Kind::Neg,
        Kind::Neg => Kind::Pos,
        other => other,
    }
}

// The kind of a reaction's column in part A. The strong table has the signs opposite to the reaction's vector.
pub(crate) fn column_kind(net: &Network, table: InfluenceTable, r: usize, prefix: &[Sign]) -> Kind
    requires { r < length net.now.reactions }
    ensures { result ≡ kind_of_column (slice_index_or (table_of net.now table) r []) prefix.now }
{
    match table {
        InfluenceTable::Plain => kind_from(false, false, net.vector(net.reactant(r)), prefix),
        InfluenceTable::Strong => opposite_kind(kind_from(
            false,
            false,
            net.reaction_vector(r),
            prefix,
        )),
    }
}

// The kind of a coordinate of part A of a table: the reactions' columns first, and then the species' rows.
fn kind_of_table(net: &Network, table: InfluenceTable, prefix: &[Sign], k: usize) -> Kind
    requires { k < length net.now.reactions + length net.now.names }
    ensures { result
        ≡ kind_at (kinds_a_of (reaction_system net.now) (table_of net.now table) prefix.now) k }
{
    if k < net.reactions() {
        column_kind(net, table, k, prefix)
    } else {
        Kind::Zero
    }
}

// The kind of a coordinate of part B, in which these signs of species are chosen.
fn kind_of_signs(net: &Network, signs: &[Sign], k: usize) -> Kind
    requires { k < length net.now.reactions + length net.now.names }
    ensures { result ≡ kind_at (kinds_b_of (reaction_system net.now) signs.now) k }
{
    let reactions = net.reactions();
    if k < reactions {
        Kind::Free
    } else {
        row_kind(signs, k - reactions)
    }
}

// The kind of a coordinate of part A at a prefix.
fn kind_a(net: &Network, problem: Problem, prefix: &[Sign], k: usize) -> Kind
    requires { k < width (problem_of net.now problem).matrix_a }
    ensures { result ≡ kind_at ((problem_of net.now problem.entry).kinds_a prefix.now) k }
{
    match problem {
        Problem::Concordance(table) => kind_of_table(net, table, prefix, k),
        Problem::Signals(shape) => shape.kind(prefix, k),
    }
}

// The options of a prefix that are signs of species.
fn species_signs<'p>(problem: Problem, prefix: &'p [Sign]) -> &'p [Sign]
    ensures { (net : Net) → kinds_b_of (reaction_system net) result.now
        ≡ (problem_of net problem.entry).kinds_b prefix.now }
{
    match problem {
        Problem::Concordance(_) => prefix,
        Problem::Signals(shape) => shape.signs(prefix),
    }
}

/// The kind of a coordinate of a part at a prefix: the columns first, and then the rows.
pub(crate) fn kind(net: &Network, problem: Problem, part: Part, prefix: &[Sign], k: usize) -> Kind
    requires { k < width (matrix_of net.now problem part) }
    ensures { result ≡ kind_at (kinds_of net.now problem.entry part prefix.now) k }
{
    match part {
        Part::A => kind_a(net, problem, prefix, k),
        Part::B => kind_of_signs(net, species_signs(problem, prefix), k),
    }
}
