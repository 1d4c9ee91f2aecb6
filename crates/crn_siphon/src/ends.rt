ghost use Rattle.std.specs.Prelude.{◌≡◌, ◌<◌, ◌↔◌, ◌≤◌, ◌+◌, ◌⊎◌, Bool, List, IsTrue, IfOk, MatchOption, length};
ghost use Rattle.crn_siphon_check.specs.Prefixes.{IsBad};
ghost use Rattle.crn_siphon.specs.Inner.Places.{AreAllHolders, AreEnds, AreHolders, IsPlace, NoneStops, StopsLast};
ghost use Rattle.crn_siphon.specs.Inner.Sets.{Has, HasCommon, IsWithin};

use crate::place::Place;
use crate::sets::{SpeciesSet, held};
use crn_net::Network;
use crn_vec::NoMemory;
use std::alloc::Global;

/// A reaction, counted from 1, and the species that its reactant and its product hold.
#[derive(Clone, Copy)]
pub(crate) struct Ends {
    pub reaction: u32,
    pub reactant: SpeciesSet,
    pub product: SpeciesSet,
}

/// The reactions that hold a species, ascending.
#[derive(Drop)]
pub(crate) struct Holders {
    pub ends: Vec<Ends>,
}

// The ends of all reactions.
fn ends_of(alloc: Global, net: &Network) -> Result<Vec<Ends>, NoMemory>
    ensures { IfOk result (λ made. AreEnds net.now (length net.now.reactions) made.items) }
{
    let mut ends = Vec::with_capacity(alloc, net.reactions())?;
    for r in 0..net.reactions() {
        ends.push(Ends {
            reaction: r as u32 + 1,
            reactant: held(net, net.reactant(r)),
            product: held(net, net.product(r)),
        })?;
    }
    Ok(ends)
}

// Whether the reactant or the product has the species.
fn holds(ends: Ends, s: usize) -> bool
    requires { s < 64 }
    ensures { IsTrue result ↔ (Has ends.reactant s ⊎ Has ends.product s) }
{
    ends.reactant.has(s) || ends.product.has(s)
}

// The reactions that hold a species.
fn holders_at(alloc: Global, net: &Network, ends: &[Ends], s: usize) -> Result<Holders, NoMemory>
    requires species { s < 64 }
    requires ends { AreEnds net.now (length net.now.reactions) ends.now }
    ensures { IfOk result
        (λ made. AreHolders net.now (length net.now.reactions) s made.ends.items) }
{
    let mut found = Vec::new(alloc);
    for r in 0..net.reactions() {
        if holds(ends[r], s) {
            found.push(ends[r])?;
        }
    }
    Ok(Holders { ends: found })
}

/// For each species the reactions that hold it.
pub(crate) fn all_holders(alloc: Global, net: &Network) -> Result<Vec<Holders>, NoMemory>
    ensures { IfOk result (λ made. AreAllHolders net.now (length net.now.names) made.items) }
{
    net.meets_definition();
    let ends = ends_of(alloc, net)?;
    let mut all = Vec::with_capacity(alloc, net.species())?;
    for s in 0..net.species() {
        all.push(holders_at(alloc, net, &ends, s)?)?;
    }
    Ok(all)
}

// Whether the product has a species that is in, and all of the reactant are out, which is rarer and tried first.
fn stops(ends: Ends, place: Place) -> bool
    ensures { IsTrue result
        ↔ (HasCommon ends.product place.inside × IsWithin ends.reactant place.outside) }
{
    ends.reactant.is_within(place.outside) && ends.product.meets(place.inside)
}

// The least of the reactions that hold a species, counted from 1, that stops the prefix, if one does.
fn stopping_among(net: &Network, ends: &[Ends], place: Place, s: usize) -> Option<u32>
    requires holders { AreHolders net.now (length net.now.reactions) s ends.now }
    requires last { StopsLast net.now place }
    requires species { place.chosen ≡ s + 1 }
    ensures { MatchOption result (NoneStops net.now place)
        (λ r. (p : List Bool) → IsPlace place p → IsBad net.now p r) }
{
    let _ = net;
    for i in 0..ends.len() {
        if stops(ends[i], place) {
            return Some(ends[i].reaction);
        }
    }
    None
}

/// The least reaction, counted from 1, that stops the prefix, if one does. A reaction that stops it holds the last species.
pub(crate) fn stopping(net: &Network, all: &[Holders], place: Place) -> Option<u32>
    requires holders { AreAllHolders net.now (length net.now.names) all.now }
    requires last { StopsLast net.now place }
    requires room { place.chosen ≤ length net.now.names }
    ensures { MatchOption result (NoneStops net.now place)
        (λ r. (p : List Bool) → IsPlace place p → IsBad net.now p r) }
{
    if place.chosen == 0 {
        return None;
    }
    let s = place.chosen - 1;
    stopping_among(net, &all[s].ends, place, s)
}
