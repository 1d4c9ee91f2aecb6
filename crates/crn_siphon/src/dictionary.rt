ghost use Rattle.std.specs.Prelude.{◌≡◌, ◌<◌, ◌≤◌, IfSome, length};
ghost use Rattle.crn_vec.specs.declared.limits.TheConstants.{MAX_SPECIES};

use crate::row::{Row, clear, negate, quotient, reduce, shared};
use crate::sets::SpeciesSet;
use crate::terms::{Term, product};
use crn_vec::{MAX_SPECIES, NoMemory};
use std::alloc::Global;

/// A law, with signs, that has a species of its own: its weight there is positive, and that of each other law of the dictionary is 0.
#[derive(Clone, Copy)]
pub(crate) struct OwnLaw {
    pub own: usize,
    pub weights: Row,
    ghost in_range: { own < MAX_SPECIES },
}

/// The laws of the reactions that were eliminated, in reduced row echelon form, each with a pivot of its own.
#[derive(Drop)]
pub(crate) struct Dictionary {
    pub species: usize,
    pub laws: Vec<OwnLaw>,
    ghost few: { species ≤ MAX_SPECIES },
}

/// What the laws say of a set.
#[derive(Clone, Copy)]
pub(crate) enum Found {
    /// A law with no weight below 0, and none outside the set.
    Law(Row),
    /// Changes of species that every law allows, by which each member grows.
    Growth(Row),
}

// How many pivots are changed by Bland's rule, for a set or for a positive law, before the engine gives up. The rule ends by
// itself; this stops numbers that have wrapped.
const MAX_PIVOTS: usize = 1_000;

// The sum of the first weights.
fn total(weights: &Row, count: usize) -> i64
    requires { count ≤ MAX_SPECIES }
{
    let mut sum = 0i64;
    for s in 0..count {
        sum = sum.wrapping_add(weights[s]);
    }
    sum
}

// The first species at which the weight is less.
fn first_under(weights: &Row, least: i64, count: usize) -> Option<usize>
    requires { count ≤ MAX_SPECIES }
    ensures { IfSome result (λ s. s < MAX_SPECIES) }
{
    for s in 0..count {
        if weights[s] < least {
            return Some(s);
        }
    }
    None
}

impl Dictionary {
    /// That of no reactions: each species' amount is a law.
    pub(crate) fn units(alloc: Global, species: usize) -> Result<Dictionary, NoMemory>
        requires { species ≤ MAX_SPECIES }
    {
        let mut laws = Vec::with_capacity(alloc, species)?;
        for own in 0..species {
            let mut weights = [0; MAX_SPECIES];
            weights[own] = 1;
            laws.push(OwnLaw { own, weights })?;
        }
        Ok(Dictionary { species, laws })
    }

    // The place of the law that a reaction breaks by the least, the first of these.
    fn broken(&self, terms: &[Term]) -> Option<usize>
        ensures { IfSome result (λ i. i < length self.now.laws.items) }
    {
        let (mut found, mut least) = (None, 0);
        for i in 0..self.laws.len() {
            let change = product(&self.laws[i].weights, terms).unsigned_abs();
            if change != 0 && (least == 0 || change < least) {
                least = change;
                found = Some(i);
            }
        }
        found
    }

    /// Takes out a law that a reaction breaks, and clears the others by it. None is broken if the reaction depends on those before it.
    pub(crate) fn eliminate(&mut self, terms: &[Term]) -> Option<Row> {
        let i = self.broken(terms)?;
        let lead = self.laws.swap_remove(i).weights;
        let change = product(&lead, terms);
        for j in 0..self.laws.len() {
            let value = product(&self.laws[j].weights, terms);
            if value != 0 {
                clear(
                    &mut self.laws[j].weights,
                    value,
                    &lead,
                    change,
                    self.species,
                );
            }
        }
        Some(lead)
    }

    // Makes the species the pivot of the law at this place, whose weight there is not 0.
    fn pivot(&mut self, i: usize, own: usize)
        requires law { i < length self.old.laws.items }
        requires species { own < MAX_SPECIES }
        ensures { length self.new.laws.items ≡ length self.old.laws.items }
    {
        let mut weights = self.laws[i].weights;
        if weights[own] < 0 {
            negate(&mut weights, self.species);
        }
        for j in 0..self.laws.len() {
            let value = self.laws[j].weights[own];
            if j != i && value != 0 {
                clear(
                    &mut self.laws[j].weights,
                    value,
                    &weights,
                    weights[own],
                    self.species,
                );
            }
        }
        self.laws[i] = OwnLaw { own, weights };
    }

    // A species outside the set at which the law at this place has a weight.
    fn outside(&self, i: usize, set: SpeciesSet) -> Option<usize>
        requires { i < length self.now.laws.items }
        ensures { IfSome result (λ s. s < MAX_SPECIES) }
    {
        for s in 0..self.species {
            if self.laws[i].weights[s] != 0 && !set.has(s) {
                return Some(s);
            }
        }
        None
    }

    // Moves pivots out of the set, where the law has a weight outside.
    fn leave(&mut self, set: SpeciesSet) {
        for i in 0..self.laws.len() {
            if set.has(self.laws[i].own) {
                if let Some(s) = self.outside(i, set) {
                    self.pivot(i, s);
                }
            }
        }
    }

    // The place of a law with its pivot in the set and no weight below 0.
    fn within(&self, set: SpeciesSet) -> Option<usize>
        ensures { IfSome result (λ i. i < length self.now.laws.items) }
    {
        for i in 0..self.laws.len() {
            let law = &self.laws[i];
            if set.has(law.own) && first_under(&law.weights, 0, self.species).is_none() {
                return Some(i);
            }
        }
        None
    }

    // The place with the lesser pivot.
    fn lesser(&self, best: Option<usize>, i: usize) -> Option<usize>
        requires law { i < length self.now.laws.items }
        requires best { IfSome best (λ j. j < length self.now.laws.items) }
        ensures { IfSome result (λ j. j < length self.now.laws.items) }
    {
        match best {
            Some(j) if self.laws[j].own < self.laws[i].own => best,
            _ => Some(i),
        }
    }

    // The place of the law with the least pivot, of those whose pivot is in the set and grows by less than 1 if all other species
    // grow by 1; none if all such pivots grow.
    fn falling(&self, set: SpeciesSet) -> Option<usize>
        ensures { IfSome result (λ i. i < length self.now.laws.items) }
    {
        let (mut falls, mut is_all) = (None, true);
        for i in 0..self.laws.len() {
            let law = &self.laws[i];
            if set.has(law.own) {
                let total = total(&law.weights, self.species);
                is_all &= total < law.weights[law.own];
                if total > 0 {
                    falls = self.lesser(falls, i);
                }
            }
        }
        if is_all { None } else { falls }
    }

    // The changes of species, of which each that is no pivot grows by the same number.
    fn growth(&self) -> Row {
        let mut common = 1i64;
        for law in &self.laws {
            let lead = law.weights[law.own];
            let own = quotient(lead, shared(total(&law.weights, self.species), lead));
            common = quotient(common, shared(common, own)).wrapping_mul(own);
        }
        let mut changes = [common; MAX_SPECIES];
        for law in &self.laws {
            let lead = law.weights[law.own];
            let change = lead.wrapping_sub(total(&law.weights, self.species));
            let both = shared(change, lead);
            changes[law.own] = quotient(change, both).wrapping_mul(quotient(
                common,
                quotient(lead, both),
            ));
        }
        changes
    }

    /// Changes pivots until the laws tell whether one is within the set, or each member may grow at once: by Bland's rule.
    pub(crate) fn decide(&mut self, set: SpeciesSet) -> Option<Found> {
        self.leave(set);
        for _ in 0..MAX_PIVOTS {
            if let Some(i) = self.within(set) {
                return Some(Found::Law(self.laws[i].weights));
            }
            match self.falling(set) {
                Some(i) => {
                    let s = first_under(&self.laws[i].weights, 0, self.species)?;
                    self.pivot(i, s);
                }
                None => return Some(Found::Growth(self.growth())),
            }
        }
        None
    }

    // The sum of the laws, in each of which the pivot's weight is the same number, and that number.
    fn sum_of_laws(&self) -> (Row, i64) {
        let mut common = 1i64;
        for law in &self.laws {
            let lead = law.weights[law.own];
            common = quotient(common, shared(common, lead)).wrapping_mul(lead);
        }
        let mut sum = [0; MAX_SPECIES];
        for law in &self.laws {
            let factor = quotient(common, law.weights[law.own]);
            for s in 0..self.species {
                sum[s] = law.weights[s].wrapping_mul(factor).wrapping_add(sum[s]);
            }
        }
        (sum, common)
    }

    // The place of the law with the least pivot of those whose weight at the species is positive.
    fn weighing(&self, s: usize) -> Option<usize>
        requires { s < MAX_SPECIES }
        ensures { IfSome result (λ i. i < length self.now.laws.items) }
    {
        let mut found = None;
        for i in 0..self.laws.len() {
            if self.laws[i].weights[s] > 0 {
                found = self.lesser(found, i);
            }
        }
        found
    }

    /// A law with positive weights alone: by Bland's rule.
    pub(crate) fn positive_law(&mut self) -> Option<Row> {
        for _ in 0..MAX_PIVOTS {
            let (mut sum, common) = self.sum_of_laws();
            if first_under(&sum, 1, self.species).is_none() {
                reduce(&mut sum, self.species);
                return Some(sum);
            }
            let s = first_under(&sum, common, self.species)?;
            let i = self.weighing(s)?;
            self.pivot(i, s);
        }
        None
    }
}
