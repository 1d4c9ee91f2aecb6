ghost use Rattle.std.specs.Prelude.{◌≡◌, ◌≢◌, ◌<◌, ◌-ℤ◌, ℤ, [], length, map, slice_index_or, IfOk};
ghost use Rattle.crn_vec.specs.Concordance.{sign};
ghost use Rattle.crn_vec.specs.Network.{minus};
ghost use Rattle.crn_vec.specs.Influence.{plain_table, strong_table};
ghost use Rattle.crn_conc.specs.Inner.Rows.{IsLast};

use crn_net::Network;
use crn_vec::{NoMemory, Sign, sign_of};
use std::alloc::Global;
use std::marker::Model;

// The signs of the species for one reaction, and how many species there are up to the last one with a
// sign.
#[derive(Drop)]
struct SignRow {
    signs: Vec<Sign>,
    last: usize,
}

impl Model for SignRow {
    ghost use Rattle.std.specs.Prelude.{List};
    ghost use Rattle.crn_vec.specs.declared.signs.Sign.{Sign};
    ghost use Rattle.crn_conc.specs.Inner.Rows.{IsLast};

    ghost Value = { List Sign };

    ghost view = { λ s. s.signs.items };

    ghost invariant = { λ s. IsLast s.signs.items s.last };
}

// The next place if the sign before it is not zero, else the last one.
fn last_with(sign: Sign, next: usize, last: usize) -> usize
    ensures zero { sign ≡ Sign.Zero → result ≡ last }
    ensures some { sign ≢ Sign.Zero → result ≡ next }
{
    match sign {
        Sign::Zero => last,
        _ => next,
    }
}

// How many signs there are up to the last one that is not zero.
fn last_sign(signs: &[Sign]) -> usize
    ensures { IsLast signs.now result }
{
    let mut last = 0;
    for k in 0..signs.len() {
        last = last_with(signs[k], k + 1, last);
    }
    last
}

impl SignRow {
    // A row of these signs.
    fn new(signs: Vec<Sign>) -> SignRow
        ensures { result ≡ signs.items }
    {
        let last = last_sign(&signs);
        SignRow { signs, last }
    }

    // How many signs there are up to the last one that is not zero.
    fn last(&self) -> usize
        ensures { IsLast self.now result }
    {
        self.last
    }
}

/// An influence table: for each reaction the signs of the species, in order.
#[derive(Drop)]
pub struct Influence {
    rows: Vec<SignRow>,
}

impl Model for Influence {
    ghost use Rattle.std.specs.Prelude.{List};
    ghost use Rattle.crn_vec.specs.declared.signs.Sign.{Sign};

    ghost Value = { List (List Sign) };

    ghost view = { λ s. s.rows.items };
}

impl Influence {
    /// The number of reactions.
    pub(crate) fn reactions(&self) -> usize
        ensures { result ≡ length self.now }
    {
        self.rows.len()
    }

    /// The signs of all species for a reaction.
    pub(crate) fn row(&self, reaction: usize) -> &[Sign]
        requires { reaction < length self.now }
        ensures { result.now ≡ slice_index_or self.now reaction [] }
    {
        &self.rows[reaction].signs
    }

    /// How many species there are up to the last one with a sign for a reaction.
    pub(crate) fn last(&self, reaction: usize) -> usize
        requires { reaction < length self.now }
        ensures { IsLast (slice_index_or self.now reaction []) result }
    {
        self.rows[reaction].last()
    }

    /// The sign of a species for a reaction, both counted from 0.
    pub fn sign(&self, reaction: usize, species: usize) -> Sign
        requires reaction { reaction < length self.now }
        requires species { species < length (slice_index_or self.now reaction []) }
        ensures { result ≡ slice_index_or (slice_index_or self.now reaction []) species Sign.Zero }
    {
        self.row(reaction)[species]
    }
}

// The sign of a number.
fn sign_at(number: &i128) -> Sign
    ensures { result ≡ sign number.now }
{
    sign_of(*number)
}

// The sign of the first number less the second.
fn sign_of_difference(left: &i128, right: &i128) -> Sign
    ensures { result ≡ sign (left.now -ℤ right.now) }
{
    if *left > *right {
        return Sign::Plus;
    }
    if *left < *right {
        return Sign::Minus;
    }
    Sign::Zero
}

// The signs of these numbers.
fn signs_of(alloc: Global, numbers: &[i128]) -> Result<SignRow, NoMemory>
    ensures { IfOk result (λ made. made ≡ map sign numbers.now) }
{
    let mut signs = Vec::with_capacity(alloc, numbers.len())?;
    for s in 0..numbers.len() {
        signs.push(sign_at(&numbers[s]))?;
    }
    Ok(SignRow::new(signs))
}

// The signs of the first numbers less the second, place by place.
fn signs_of_differences(alloc: Global, left: &[i128], right: &[i128]) -> Result<SignRow, NoMemory>
    requires { length right.now ≡ length left.now }
    ensures { IfOk result (λ made. made ≡ map sign (minus left.now right.now)) }
{
    let mut signs = Vec::with_capacity(alloc, left.len())?;
    for s in 0..left.len() {
        signs.push(sign_of_difference(&left[s], &right[s]))?;
    }
    Ok(SignRow::new(signs))
}

/// The plain table: plus if the reactant holds the species, else zero.
pub fn concordance_table(alloc: Global, net: &Network) -> Result<Influence, NoMemory>
    ensures { IfOk result (λ made. made ≡ plain_table net.now) }
{
    let mut rows = Vec::with_capacity(alloc, net.reactions())?;
    for r in 0..net.reactions() {
        rows.push(signs_of(alloc, net.vector(net.reactant(r)))?)?;
    }
    Ok(Influence { rows })
}

/// The strong table: the sign of the reactant's amount less the product's amount.
pub fn strong_table(alloc: Global, net: &Network) -> Result<Influence, NoMemory>
    ensures { IfOk result (λ made. made ≡ strong_table net.now) }
{
    let mut rows = Vec::with_capacity(alloc, net.reactions())?;
    for r in 0..net.reactions() {
        let reactant = net.vector(net.reactant(r));
        let product = net.vector(net.product(r));
        rows.push(signs_of_differences(alloc, reactant, product)?)?;
    }
    Ok(Influence { rows })
}
