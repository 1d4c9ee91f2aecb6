ghost use Rattle.std.specs.Prelude.{◌≡◌, ◌≤◌, ◌<◌, ◌+◌, ◌++◌, ◌∷◌, [], Bool, List, length, OnOk, IfOk, IfSome, MatchResult};
ghost use Rattle.crn_siphon.specs.Inner.Places.{IsPlace, NoneStops, StopsLast};
ghost use Rattle.crn_siphon.specs.Inner.Known.{HasMore, IsSearchStop};
ghost use Rattle.crn_siphon.specs.Inner.Search.{EndsAt, EndsBelow, HasGrown, IsReady, IsShown, IsVisit, NoneStopsIf};

use crate::ends::{Holders, stopping};
use crate::known::{Finding, Known, Solvers, find};
use crate::place::{Place, child, is_void};
use crate::sets::SpeciesSet;
use crate::tree::put_node;
use crn_farkas::Stop;
use crn_net::Network;
use crn_siphon_check::SiphonNode;
use std::alloc::Global;

/// What a search works with: memory, what is asked of sets, the reactions that hold each species, what visits have shown,
/// the nodes of the visits so far, and the visits that are left.
#[derive(Drop)]
pub(crate) struct Search {
    pub alloc: Global,
    pub solvers: Solvers,
    pub holders: Vec<Holders>,
    pub known: Known,
    pub nodes: Vec<SiphonNode>,
    pub left: u32,
}

/// How the visits of a prefix, and of all below it, ended.
#[derive(Clone, Copy)]
pub(crate) enum End {
    /// A full prefix stands, with these species in, and the known numbers at this place increase each of them.
    Found { inside: SpeciesSet, cover: usize },
    /// None does, as the tree shows whose nodes were put at the end.
    Refuted,
    /// The visits exceed those that are left.
    Spent,
}

/// What the visit of a prefix shows.
#[derive(Clone, Copy)]
pub(crate) enum Standing {
    /// This node stops it.
    Stops(SiphonNode),
    /// It stands, and the known numbers at this place increase each species that is in.
    Stands(usize),
}

// What the visit of a prefix shows.
fn look(net: &Network, search: &mut Search, place: Place) -> Result<Standing, Stop>
    requires ready { IsReady net.now search.old }
    requires room { place.chosen ≤ length net.now.names }
    requires last { StopsLast net.now place }
    ensures none { IfOk result (λ v. NoneStopsIf net.now place v) }
    ensures left { search.new.left ≡ search.old.left }
    ensures nodes { search.new.nodes.items ≡ search.old.nodes.items }
    ensures laws { OnOk result
        (HasMore search.old.known.laws.items search.new.known.laws.items) }
    ensures ready { OnOk result (IsReady net.now search.new) }
    ensures answer { (p : List Bool) → IsPlace place p →
        MatchResult result (λ v. IsShown net.now p search.new.known v)
        (λ s. IsSearchStop net.now s) }
{
    if let Some(r) = stopping(net, &search.holders, place) {
        return Ok(Standing::Stops(SiphonNode::Bad(r)));
    }
    if is_void(net, place) {
        return Ok(Standing::Stops(SiphonNode::Void));
    }
    let found = find(
        search.alloc,
        net,
        &mut search.solvers,
        &mut search.known,
        place.inside,
    )?;
    match found {
        Finding::Law(k) => Ok(Standing::Stops(SiphonNode::Law(k))),
        Finding::Cover(k) => Ok(Standing::Stands(k)),
    }
}

// Puts the node of a prefix, a fork if it stands. If it does, it gives the place of numbers that increase each species that is in.
fn visit(net: &Network, search: &mut Search, place: Place) -> Result<Option<usize>, Stop>
    requires ready { IsReady net.now search.old }
    requires room { place.chosen ≤ length net.now.names }
    requires last { StopsLast net.now place }
    requires left { 1 ≤ search.old.left }
    ensures none { IfOk result (λ v. IfSome v (λ _. NoneStops net.now place)) }
    ensures left { search.new.left + 1 ≡ search.old.left }
    ensures grown { OnOk result (HasGrown search.old search.new) }
    ensures ready { OnOk result (IsReady net.now search.new) }
    ensures answer { (p : List Bool) → IsPlace place p →
        MatchResult result (λ v. IsVisit net.now p search.old search.new v)
        (λ s. IsSearchStop net.now s) }
{
    search.left -= 1;
    match look(net, search, place)? {
        Standing::Stops(leaf) => {
            put_node(&mut search.nodes, leaf)?;
            Ok(None)
        }
        Standing::Stands(cover) => {
            put_node(&mut search.nodes, SiphonNode::Fork)?;
            Ok(Some(cover))
        }
    }
}

// Visits the children of a prefix that stands and is not full, and all that is visited below them.
#[cycle(walk)]
fn fork(net: &Network, search: &mut Search, place: Place) -> Result<End, Stop>
    requires ready { IsReady net.now search.old }
    requires room { place.chosen < length net.now.names }
    requires none { NoneStops net.now place }
    ensures ready { OnOk result (IsReady net.now search.new) }
    ensures grown { OnOk result (HasGrown search.old search.new) }
    ensures answer { (p : List Bool) → IsPlace place p → MatchResult result
        (λ e. EndsBelow net.now p search.old search.new e)
        (λ s. IsSearchStop net.now s) }
{
    net.meets_definition();
    match walk(net, search, child(place, true))? {
        End::Refuted => {}
        end => return Ok(end),
    }
    walk(net, search, child(place, false))
}

/// Visits a prefix, and all that is visited below it.
#[cycle(walk)]
pub(crate) fn walk(net: &Network, search: &mut Search, place: Place) -> Result<End, Stop>
    requires ready { IsReady net.now search.old }
    requires room { place.chosen ≤ length net.now.names }
    requires last { StopsLast net.now place }
    ensures ready { OnOk result (IsReady net.now search.new) }
    ensures grown { OnOk result (HasGrown search.old search.new) }
    ensures answer { (p : List Bool) → IsPlace place p → MatchResult result
        (λ e. EndsAt net.now p search.old search.new e)
        (λ s. IsSearchStop net.now s) }
{
    if search.left == 0 {
        return Ok(End::Spent);
    }
    let cover = match visit(net, search, place)? {
        Some(cover) => cover,
        None => return Ok(End::Refuted),
    };
    if place.chosen == net.species() {
        return Ok(End::Found {
            inside: place.inside,
            cover,
        });
    }
    fork(net, search, place)
}
