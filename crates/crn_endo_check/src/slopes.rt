ghost use Rattle.std.specs.Prelude.{◌≡◌, ◌≢◌, ◌≤◌, ◌<◌, ◌+◌, ◌-◌, ℕ, List, length, true, false, IfOk, IsTrue};
ghost use Rattle.crn_vec.specs.Concordance.{row_kinds};
ghost use Rattle.crn_vec.specs.Elementary.{width};
ghost use Rattle.crn_vec.specs.Systems.{kind_at};
ghost use Rattle.crn_vec.specs.Network.{IsNetwork};
ghost use Rattle.crn_endo_check.specs.Kept.{KeptSlopes};
ghost use Rattle.crn_endo_check.specs.Slopes.{AtLeastZeroOrFree, IsSmallEnough, NeverAtLeastZero, fall_kind, is_slope_closed, later, others, reactants, rise_kind, slope_kinds, slope_matrix};

use crate::choices::{all_but, later, option_of};
use crate::kinds::{at_least_zero_if, row_kind};
use crate::rows::{put_heights, put_negatives, put_vectors};
use crn_net::Network;
use crn_vec::{Kind, Matrix, NoMemory, Sign, is_minus_sign, is_plus_sign, kind_of_sign};
use std::alloc::Global;
use std::marker::Model;

/// The sign problem of a reaction of a network: which slopes are against it. The reaction is counted from 0.
#[derive(Drop)]
pub struct Slopes<'a> {
    net: &'a Network,
    reaction: usize,
    further: Vec<usize>,
}

impl<'a> Model for Slopes<'a> {
    ghost use Rattle.std.specs.Prelude.{◌≡◌, ◌<◌, length};
    ghost use Rattle.crn_endo_check.specs.Kept.{KeptSlopes};
    ghost use Rattle.crn_endo_check.specs.Slopes.{others};

    ghost Value = { KeptSlopes };

    ghost view = { λ s. record { net = s.net.now; reaction = s.reaction } };

    ghost invariant = { λ s. (s.reaction < length s.net.now.reactions)
        × (s.further.items ≡ others s.net.now s.reaction) };
}

impl<'a> Slopes<'a> {
    /// The problem of a reaction, by the reactant complexes of the network.
    pub fn new(
        alloc: Global,
        net: &'a Network,
        given: &[usize],
        reaction: usize,
    ) -> Result<Slopes<'a>, NoMemory>
        requires inside { reaction < length net.now.reactions }
        requires reactants { given.now ≡ reactants net.now }
        ensures { IfOk result (λ made. made ≡ record { net = net.now; reaction = reaction }) }
    {
        Ok(Slopes {
            net,
            reaction,
            further: all_but(alloc, given, net.reactant(reaction))?,
        })
    }

    /// The number of choices: the sign of the rise along the reaction, and one for each further reactant complex.
    pub fn choices(&self) -> usize
        ensures count { result ≡ 1 + length (others self.now.net self.now.reaction) }
        ensures network { IsNetwork self.now.net }
        ensures inside { self.now.reaction < length self.now.net.reactions }
    {
        let _ = self.net.species();
        1 + self.further.len()
    }

    // The kind of the rise along a reaction.
    fn rise_kind(&self, prefix: &[Sign], q: usize) -> Kind
        requires { q < length self.now.net.reactions }
        ensures { result ≡ rise_kind self.now.net self.now.reaction prefix.now q }
    {
        match prefix {
            [] => Kind::Free,
            [first, options @ ..] => {
                if q == self.reaction {
                    return kind_of_sign(*first);
                }
                let option = option_of(&self.further, options, self.net.reactant(q));
                at_least_zero_if(is_plus_sign(*first) && is_plus_sign(option))
            }
        }
    }

    // The kind of the fall along a reaction.
    fn fall_kind(&self, prefix: &[Sign], q: usize) -> Kind
        requires { q < length self.now.net.reactions }
        ensures { result ≡ fall_kind self.now.net self.now.reaction prefix.now q }
    {
        match prefix {
            [] => Kind::Free,
            [first, options @ ..] => {
                let option = option_of(&self.further, options, self.net.reactant(q));
                at_least_zero_if(is_minus_sign(*first) && is_minus_sign(option))
            }
        }
    }

    /// The kind of a coordinate of part A at a prefix: species, rises, falls, heights.
    pub fn kind(&self, prefix: &[Sign], coordinate: usize) -> Kind
        requires { coordinate < width (slope_matrix self.now.net self.now.reaction) }
        ensures { result
            ≡ kind_at (slope_kinds self.now.net self.now.reaction prefix.now) coordinate }
    {
        let species = self.net.species();
        let reactions = self.net.reactions();
        if coordinate < species {
            return Kind::Free;
        }
        let row = coordinate - species;
        if row < reactions {
            return self.rise_kind(prefix, row);
        }
        let row = row - reactions;
        if row < reactions {
            return self.fall_kind(prefix, row);
        }
        row_kind(later(prefix), row - reactions)
    }

    /// Whether a coordinate of part A is free or at least 0 at each prefix: a rise or a fall, but not the rise
    /// along the reaction itself. No other is at least 0 at any.
    pub fn is_weak(&self, coordinate: usize) -> bool
        requires { coordinate < width (slope_matrix self.now.net self.now.reaction) }
        ensures weak { IsTrue result
            → AtLeastZeroOrFree self.now.net self.now.reaction coordinate }
        ensures firm { result ≡ false
            → NeverAtLeastZero self.now.net self.now.reaction coordinate }
    {
        let species = self.net.species();
        let reactions = self.net.reactions();
        if coordinate < species {
            return false;
        }
        let row = coordinate - species;
        if row >= reactions + reactions {
            return false;
        }
        if row == self.reaction {
            return false;
        }
        true
    }

    /// Whether a prefix is closed: its first option is zero.
    pub fn is_closed(&self, prefix: &[Sign]) -> bool
        ensures { result ≡ is_slope_closed prefix.now }
    {
        match prefix {
            [] => false,
            [first, ..] => match first {
                Sign::Zero => true,
                _ => false,
            },
        }
    }

    /// The matrix of both parts: a column for each species; a row for each reaction, its vector, then one for each, its
    /// negative, and one for each further reactant complex, the difference to the reaction's reactant.
    pub fn matrix(&self, alloc: Global) -> Result<Matrix, NoMemory>
        requires { IsSmallEnough self.now.net }
        ensures { IfOk result (λ made. made ≡ slope_matrix self.now.net self.now.reaction) }
    {
        let rows = self.net.reactions() + self.net.reactions() + self.further.len();
        let cols = self.net.species();
        let mut entries = Vec::with_capacity(alloc, rows * cols)?;
        put_vectors(&mut entries, self.net)?;
        put_negatives(&mut entries, self.net)?;
        put_heights(&mut entries, self.net, self.reaction, &self.further)?;
        Matrix::from_entries(alloc, rows, cols, entries)
    }
}
