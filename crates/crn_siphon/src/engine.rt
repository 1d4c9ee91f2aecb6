ghost use Rattle.std.specs.Prelude.{◌<◌, ◌≤◌, length};
ghost use Rattle.crn_vec.specs.declared.limits.TheConstants.{MAX_SPECIES};

use crate::dictionary::{Dictionary, Found};
use crate::row::{Row, ratio_of, scale};
use crate::sets::SpeciesSet;
use crate::terms::{Term, product, take, terms_in, terms_of};
use crn_net::Network;
use crn_vec::{Ints, MAX_SPECIES, NoMemory};
use std::alloc::Global;

/// A reaction that depends on none before it, with a law of those before (`lead`) that it breaks, and by how much (`value`).
#[derive(Drop)]
struct Step {
    reaction: usize,
    terms: Vec<Term>,
    lead: Vec<Term>,
    value: i64,
}

/// A search for laws and covers by elimination. Its numbers wrap, and nothing is proved of them: the caller tests what is proposed.
#[derive(Drop)]
pub(crate) struct Engine {
    reactions: usize,
    steps: Vec<Step>,
    dictionary: Dictionary,
    has_failed: bool,
}

/// What is proposed.
#[derive(Drop)]
pub(crate) enum Proposal {
    /// Weights of a law within the set.
    Law(Ints),
    /// Numbers of the reactions that increase each member.
    Cover(Ints),
    /// Nothing.
    Nothing,
}

// The first entries as a list.
fn list(alloc: Global, row: &Row, count: usize) -> Result<Ints, NoMemory>
    requires { count ≤ MAX_SPECIES }
{
    let mut made = Ints::with_room(alloc, count)?;
    for s in 0..count {
        made.push(row[s] as i128)?;
    }
    Ok(made)
}

impl Engine {
    /// Eliminates the reactions of a network.
    pub(crate) fn new(alloc: Global, net: &Network) -> Result<Engine, NoMemory> {
        let mut dictionary = Dictionary::units(alloc, net.species())?;
        let mut steps = Vec::with_capacity(alloc, net.species())?;
        for r in 0..net.reactions() {
            // The last law is kept: a conservative network has one, and of another network it fails the test.
            if dictionary.laws.len() > 1 {
                let terms = terms_of(alloc, net, r)?;
                if let Some(lead) = dictionary.eliminate(&terms) {
                    let value = product(&lead, &terms);
                    let lead = terms_in(alloc, &lead, net.species())?;
                    steps.push(Step {
                        reaction: r,
                        terms,
                        lead,
                        value,
                    })?;
                }
            }
        }
        Ok(Engine {
            reactions: net.reactions(),
            steps,
            dictionary,
            has_failed: false,
        })
    }

    /// Nothing is proposed from here on.
    pub(crate) fn give_up(&mut self) {
        self.has_failed = true;
    }

    // Numbers of the steps' reactions that make a multiple of the changes: by back substitution.
    fn solution(&self, mut changes: Row) -> Row {
        let mut numbers = [0; MAX_SPECIES];
        let mut left = self.steps.len();
        'back: while left > 0 {
            left -= 1;
            let step = &self.steps[left];
            let value = product(&changes, &step.lead);
            if value != 0 && left < MAX_SPECIES {
                let ratio = ratio_of(value, step.value);
                if ratio.times != 1 {
                    scale(&mut changes, ratio.times, self.dictionary.species);
                    scale(&mut numbers, ratio.times, self.dictionary.species);
                }
                take(&mut changes, &step.terms, ratio.factor);
                numbers[left] = ratio.factor;
            }
        }
        numbers
    }

    // Numbers of the steps' reactions as numbers of all reactions.
    fn spread(&self, alloc: Global, numbers: &Row) -> Result<Ints, NoMemory> {
        let mut all = vec![in alloc; 0i128; self.reactions]?;
        for i in 0..self.steps.len() {
            let r = self.steps[i].reaction;
            if i < MAX_SPECIES && r < all.len() {
                all[r] = numbers[i] as i128;
            }
        }
        Ok(Ints::from_vec(all))
    }

    /// A law within the set, or numbers of the reactions that increase each member, if one is found.
    pub(crate) fn propose(&mut self, alloc: Global, set: SpeciesSet) -> Result<Proposal, NoMemory> {
        if self.has_failed {
            return Ok(Proposal::Nothing);
        }
        match self.dictionary.decide(set) {
            Some(Found::Law(weights)) => Ok(Proposal::Law(list(
                alloc,
                &weights,
                self.dictionary.species,
            )?)),
            Some(Found::Growth(changes)) => {
                Ok(Proposal::Cover(self.spread(alloc, &self.solution(changes))?))
            }
            None => Ok(Proposal::Nothing),
        }
    }

    /// Weights of a law that are all positive, if some are found.
    pub(crate) fn propose_law(&mut self, alloc: Global) -> Result<Option<Ints>, NoMemory> {
        match self.dictionary.positive_law() {
            Some(weights) => Ok(Some(list(alloc, &weights, self.dictionary.species)?)),
            None => Ok(None),
        }
    }
}
