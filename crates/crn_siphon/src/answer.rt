ghost use Rattle.std.specs.Prelude.{◌≡◌, ◌≤◌, [], length, IfOk, IfSome, MatchResult};
ghost use Rattle.crn_vec.specs.declared.limits.TheConstants.{MAX_BUDGET};
ghost use Rattle.crn_vec.specs.Deficiency.{IsConservationLaw};
ghost use Rattle.crn_cert.specs.Ranges.{AreFree};
ghost use Rattle.crn_siphon_check.specs.Answers.{IsAnswer, said_of};
ghost use Rattle.crn_siphon.specs.Inner.Known.{IsSearchStop};
ghost use Rattle.crn_siphon.specs.Inner.Ends.{IsEndOfVisits, IsStopAnswer};
ghost use Rattle.crn_siphon.specs.Inner.Search.{IsReady};

use crate::ends::all_holders;
use crate::engine::Engine;
use crate::known::{Solvers, nothing_known};
use crate::place::ROOT;
use crate::search::{End, Search, walk};
use crate::sets::marks;
use crate::tree::weights_of;
use crate::trial::is_positive_law;
use crn_farkas::{Decision, Stop};
use crn_net::Network;
use crn_siphon_check::{Persist, SiphonTree};
use crn_solve::law_or_cut;
use crn_vec::{Ints, NoMemory};
use std::alloc::Global;
use std::mem;

// What the visits show.
#[derive(Drop)]
enum Shown {
    /// A full prefix stands: its marks, and numbers that increase each member.
    Siphon { marks: Ints, cover: Ints },
    /// None does, as this tree shows.
    Tree(SiphonTree),
    /// The visits exceed the budget.
    Spent,
}

// What the visits show, the first of which is that of the empty prefix.
fn visit_root(net: &Network, search: &mut Search) -> Result<Shown, Stop>
    requires ready { IsReady net.now search.old }
    requires fresh { search.old.nodes.items ≡ [] }
    ensures { MatchResult result (λ e. IsEndOfVisits net.now search.old.left e)
        (λ s. IsSearchStop net.now s) }
{
    match walk(net, search, ROOT)? {
        End::Found { inside, cover } => {
            let marks = marks(search.alloc, inside, net.species())?;
            let cover = search.known.covers[cover].numbers.copy()?;
            Ok(Shown::Siphon { marks, cover })
        }
        End::Refuted => {
            let laws = weights_of(search.alloc, &search.known.laws)?;
            let nodes = mem::replace(&mut search.nodes, Vec::new(search.alloc));
            Ok(Shown::Tree(SiphonTree::new(nodes, laws)))
        }
        End::Spent => Ok(Shown::Spent),
    }
}

// What at most this many visits show.
fn visit_all(alloc: Global, net: &Network, budget: u32, engine: Engine) -> Result<Shown, Stop>
    ensures { MatchResult result (λ e. IsEndOfVisits net.now budget e)
        (λ s. IsSearchStop net.now s) }
{
    let mut search = Search {
        alloc,
        solvers: Solvers {
            engine,
            solver: None,
        },
        holders: all_holders(alloc, net)?,
        known: nothing_known(alloc, net)?,
        nodes: Vec::new(alloc),
        left: budget,
    };
    visit_root(net, &mut search)
}

// The answer if a solver of this system stopped.
fn stop_answer(system: u32, stop: Stop) -> Result<Persist, NoMemory>
    ensures { IfOk result (λ answer. IsStopAnswer system stop answer) }
{
    match stop {
        Stop::Wide { index, basis } => Ok(Persist::Wide {
            system,
            index,
            basis,
        }),
        Stop::NoMemory => Err(NoMemory),
    }
}

// Whether a network with this law is persistent by its siphons, with at most this many visits.
fn persist_by(
    alloc: Global,
    net: &Network,
    budget: u32,
    engine: Engine,
    law: Ints,
) -> Result<Persist, NoMemory>
    requires law { IsConservationLaw net.now law.list }
    requires free { AreFree (length net.now.names) law.list }
    requires low { 1 ≤ budget }
    requires high { budget ≤ MAX_BUDGET }
    ensures { IfOk result (λ answer. IsAnswer net.now budget (said_of answer)) }
{
    net.meets_definition();
    match visit_all(alloc, net, budget, engine) {
        Ok(Shown::Siphon { marks, cover }) => Ok(Persist::NoSiphon { marks, cover }),
        Ok(Shown::Tree(tree)) => Ok(Persist::Yes { law, tree }),
        Ok(Shown::Spent) => Ok(Persist::Spent { nodes: budget }),
        Err(stop) => stop_answer(2, stop),
    }
}

// A law with positive weights that the engine proposes, if it passes the test.
fn tested_law(alloc: Global, net: &Network, engine: &mut Engine) -> Result<Option<Ints>, NoMemory>
    ensures law { IfOk result
        (λ found. IfSome found (λ law. IsConservationLaw net.now law.list)) }
    ensures free { IfOk result
        (λ found. IfSome found (λ law. AreFree (length net.now.names) law.list)) }
{
    if let Some(law) = engine.propose_law(alloc)? {
        if is_positive_law(net, law.as_slice()) {
            return Ok(Some(law));
        }
    }
    Ok(None)
}

/// Whether the network is persistent by its siphons, with at most this many visits. Takes memory.
pub fn persist(alloc: Global, net: &Network, budget: u32) -> Result<Persist, NoMemory>
    requires low { 1 ≤ budget }
    requires high { budget ≤ MAX_BUDGET }
    ensures { IfOk result (λ answer. IsAnswer net.now budget (said_of answer)) }
{
    net.meets_definition();
    let mut engine = Engine::new(alloc, net)?;
    if let Some(law) = tested_law(alloc, net, &mut engine)? {
        return persist_by(alloc, net, budget, engine, law);
    }
    match law_or_cut(alloc, net) {
        Ok(Decision::Feasible(law)) => persist_by(alloc, net, budget, engine, law),
        Ok(Decision::Infeasible(cut)) => Ok(Persist::NoLaw { cut }),
        Err(stop) => stop_answer(1, stop),
    }
}
