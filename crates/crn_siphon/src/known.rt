ghost use Rattle.std.specs.Prelude.{◌≡◌, ◌++◌, ◌∷◌, [], length, IfOk, IfSome, OnOk, MatchResult};
ghost use Rattle.crn_vec.specs.NetSystems.{reaction_system};
ghost use Rattle.crn_siphon.specs.Inner.Known.{AreCovers, AreLaws, HasMore, IsCoverIn, IsCoverOf, IsFinding, IsKnown, IsLawIn, IsLawWithin, IsSearchStop, fact};

use crate::changes::{Changes, all_changes};
use crate::engine::{Engine, Proposal};
use crate::kinds::siphon_kinds;
use crate::sets::{NONE, SpeciesSet, support};
use crate::trial::{cover_of, covered, is_law_within};
use crn_conc::reaction_matrix;
use crn_farkas::{Decision, Solver, Stop};
use crn_net::Network;
use crn_vec::{Ints, NoMemory};
use std::alloc::Global;

/// A law with the species that have a weight, or numbers of the reactions with species that they increase.
#[derive(Drop)]
pub(crate) struct Fact {
    pub numbers: Ints,
    pub species: SpeciesSet,
}

/// What the reactions change, and what earlier visits have shown: numbers of the reactions, and laws.
///
/// Where these answer, the solver is not asked: numbers serve each prefix whose members they increase, and a law each one whose
/// members are all of its species. So a search asks for few of its visits.
#[derive(Drop)]
pub(crate) struct Known {
    pub covers: Vec<Fact>,
    /// The place of the numbers that are tried first, those that served last.
    pub first: usize,
    pub laws: Vec<Fact>,
    pub changes: Vec<Changes>,
}

/// What is asked about a set: the engine, whose answers are tested, and from its first failure on the solver of system 2.
#[derive(Drop)]
pub(crate) struct Solvers {
    pub engine: Engine,
    /// None before that failure.
    pub solver: Option<Solver>,
}

/// What is found of a set, by the place of what shows it, counted from 0.
#[derive(Clone, Copy)]
pub(crate) enum Finding {
    /// A law is within the set.
    Law(usize),
    /// Numbers increase each member.
    Cover(usize),
}

// How many covers are kept at once, the first of which is that of no species.
const MAX_COVERS: usize = 65;

/// What is known before the first visit.
pub(crate) fn nothing_known(alloc: Global, net: &Network) -> Result<Known, NoMemory>
    ensures { IfOk result (λ made. IsKnown net.now made) }
{
    let zeros = Ints::from_vec(vec![in alloc; 0i128; net.reactions()]?);
    let mut covers = Vec::new(alloc);
    put_fact(&mut covers, zeros, NONE)?;
    Ok(Known {
        covers,
        first: 0,
        laws: Vec::new(alloc),
        changes: all_changes(alloc, net)?,
    })
}

// The place of known numbers that increase each member of the set.
fn known_cover(net: &Network, covers: &[Fact], set: SpeciesSet) -> Option<usize>
    requires { AreCovers net.now covers.now }
    ensures { IfSome result (λ k. IsCoverOf net.now set covers.now k) }
{
    let _ = net;
    for k in 0..covers.len() {
        if set.is_within(covers[k].species) {
            return Some(k);
        }
    }
    None
}

// The place of a known law whose species are all in the set.
fn known_law(net: &Network, laws: &[Fact], set: SpeciesSet) -> Option<usize>
    requires { AreLaws net.now laws.now }
    ensures { IfSome result (λ k. IsLawWithin net.now set laws.now k) }
{
    let _ = net;
    for k in 0..laws.len() {
        if laws[k].species.is_within(set) {
            return Some(k);
        }
    }
    None
}

// Puts a fact at the end, and gives its place.
fn put_fact(facts: &mut Vec<Fact>, numbers: Ints, species: SpeciesSet) -> Result<usize, NoMemory>
    ensures items { OnOk result (facts.new.items ≡ facts.old.items ++ fact numbers species ∷ []) }
    ensures place { IfOk result (λ k. k ≡ length facts.old.items) }
{
    let place = facts.len();
    match facts.push(Fact { numbers, species }) {
        Ok(()) => Ok(place),
        Err(_) => Err(NoMemory),
    }
}

// Leaves room for one cover more: all but the first go if there are as many as are kept.
#[tactic(auto, using(crate::proofs::Nodes::covers_taken))]
fn make_room(net: &Network, covers: &mut Vec<Fact>)
    requires { AreCovers net.now covers.old.items }
    ensures { AreCovers net.now covers.new.items }
{
    let _ = net;
    if covers.len() >= MAX_COVERS {
        covers.truncate(1);
    }
}

// Keeps numbers that increase each member of the set, first of all.
fn keep_cover(
    net: &Network,
    known: &mut Known,
    set: SpeciesSet,
    cover: Ints,
    species: SpeciesSet,
) -> Result<Finding, NoMemory>
    requires known { IsKnown net.now known.old }
    requires cover { IsCoverIn net.now species cover.list }
    requires set { IsCoverIn net.now set cover.list }
    ensures known { OnOk result (IsKnown net.now known.new) }
    ensures kept { OnOk result (HasMore known.old.laws.items known.new.laws.items) }
    ensures answer { IfOk result (λ f. IsFinding net.now set known.new f) }
{
    make_room(net, &mut known.covers);
    let place = put_fact(&mut known.covers, cover, species)?;
    known.first = place;
    Ok(Finding::Cover(place))
}

// Keeps a law within the set.
fn keep_law(
    net: &Network,
    known: &mut Known,
    set: SpeciesSet,
    weights: Ints,
) -> Result<Finding, NoMemory>
    requires known { IsKnown net.now known.old }
    requires law { IsLawIn net.now set weights.list }
    ensures known { OnOk result (IsKnown net.now known.new) }
    ensures kept { OnOk result (HasMore known.old.laws.items known.new.laws.items) }
    ensures answer { IfOk result (λ f. IsFinding net.now set known.new f) }
{
    net.meets_definition();
    let species = support(weights.as_slice());
    let place = put_fact(&mut known.laws, weights, species)?;
    Ok(Finding::Law(place))
}

// Keeps what the engine proposes for a set, if it passes the test.
fn propose(
    alloc: Global,
    net: &Network,
    engine: &mut Engine,
    known: &mut Known,
    set: SpeciesSet,
) -> Result<Option<Finding>, NoMemory>
    requires known { IsKnown net.now known.old }
    ensures known { OnOk result (IsKnown net.now known.new) }
    ensures kept { OnOk result (HasMore known.old.laws.items known.new.laws.items) }
    ensures answer { IfOk result (λ found. IfSome found (λ f. IsFinding net.now set known.new f)) }
{
    match engine.propose(alloc, set)? {
        Proposal::Law(weights) => {
            if is_law_within(net, set, weights.as_slice()) {
                let law = keep_law(net, known, set, weights)?;
                return Ok(Some(law));
            }
        }
        Proposal::Cover(numbers) => {
            if let Some(species) = cover_of(net, &known.changes, set, numbers.as_slice()) {
                let cover = keep_cover(net, known, set, numbers, species)?;
                return Ok(Some(cover));
            }
        }
        Proposal::Nothing => {}
    }
    engine.give_up();
    Ok(None)
}

// The solver of system 2, which is taken out, or made.
fn solver_of(alloc: Global, net: &Network, kept: &mut Option<Solver>) -> Result<Solver, NoMemory>
    requires { IfSome kept.old (λ s. s.matrix ≡ reaction_system net.now) }
    ensures matrix { IfOk result (λ made. made.matrix ≡ reaction_system net.now) }
    ensures kept { OnOk result
        (IfSome kept.new (λ s. s.matrix ≡ reaction_system net.now)) }
{
    match kept.take() {
        Some(solver) => Ok(solver),
        None => {
            let matrix = reaction_matrix(alloc, net)?;
            Solver::new(alloc, &matrix)
        }
    }
}

// Asks the solver for a law within the set, or for numbers that increase each member, and keeps the answer.
fn settle(
    alloc: Global,
    net: &Network,
    solver: &mut Solver,
    known: &mut Known,
    set: SpeciesSet,
) -> Result<Finding, Stop>
    requires matrix { solver.old.matrix ≡ reaction_system net.now }
    requires known { IsKnown net.now known.old }
    ensures matrix { solver.new.matrix ≡ reaction_system net.now }
    ensures known { OnOk result (IsKnown net.now known.new) }
    ensures kept { OnOk result (HasMore known.old.laws.items known.new.laws.items) }
    ensures answer { MatchResult result (λ f. IsFinding net.now set known.new f)
        (λ s. IsSearchStop net.now s) }
{
    net.meets_definition();
    let kinds = siphon_kinds(alloc, net, set)?;
    match solver.settle(&kinds)? {
        Decision::Feasible(cover) => {
            let species = covered(net, &known.changes, set, cover.as_slice());
            Ok(keep_cover(net, known, set, cover, species)?)
        }
        Decision::Infeasible(weights) => Ok(keep_law(net, known, set, weights)?),
    }
}

// Asks the engine, and the solver where nothing proposed passes its test.
#[inline(never)]
fn ask(
    alloc: Global,
    net: &Network,
    solvers: &mut Solvers,
    known: &mut Known,
    set: SpeciesSet,
) -> Result<Finding, Stop>
    requires solver { IfSome solvers.old.solver (λ s. s.matrix ≡ reaction_system net.now) }
    requires known { IsKnown net.now known.old }
    ensures solver { OnOk result
        (IfSome solvers.new.solver (λ s. s.matrix ≡ reaction_system net.now)) }
    ensures known { OnOk result (IsKnown net.now known.new) }
    ensures kept { OnOk result (HasMore known.old.laws.items known.new.laws.items) }
    ensures answer { MatchResult result (λ f. IsFinding net.now set known.new f)
        (λ s. IsSearchStop net.now s) }
{
    if let Some(finding) = propose(alloc, net, &mut solvers.engine, known, set)? {
        return Ok(finding);
    }
    let mut solver = solver_of(alloc, net, &mut solvers.solver)?;
    let found = settle(alloc, net, &mut solver, known, set)?;
    solvers.solver = Some(solver);
    Ok(found)
}

/// A law within the set, or numbers that increase each member.
pub(crate) fn find(
    alloc: Global,
    net: &Network,
    solvers: &mut Solvers,
    known: &mut Known,
    set: SpeciesSet,
) -> Result<Finding, Stop>
    requires solver { IfSome solvers.old.solver (λ s. s.matrix ≡ reaction_system net.now) }
    requires known { IsKnown net.now known.old }
    ensures solver { OnOk result
        (IfSome solvers.new.solver (λ s. s.matrix ≡ reaction_system net.now)) }
    ensures known { OnOk result (IsKnown net.now known.new) }
    ensures kept { OnOk result (HasMore known.old.laws.items known.new.laws.items) }
    ensures answer { MatchResult result (λ f. IsFinding net.now set known.new f)
        (λ s. IsSearchStop net.now s) }
{
    if set.is_within(known.covers[known.first].species) {
        return Ok(Finding::Cover(known.first));
    }
    if let Some(k) = known_law(net, &known.laws, set) {
        return Ok(Finding::Law(k));
    }
    if let Some(k) = known_cover(net, &known.covers, set) {
        known.first = k;
        return Ok(Finding::Cover(k));
    }
    ask(alloc, net, solvers, known, set)
}
