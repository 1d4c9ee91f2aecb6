ghost use Rattle.std.specs.Prelude.{◌≡◌, ◌≤◌, ◌<◌, ◌+◌, ℕ, Some, length, IfOk, OnOk};
ghost use Rattle.crn_vec.specs.Lists.{IsIn};
ghost use Rattle.crn_cert.specs.Ranges.{IsFrom};
ghost use Rattle.crn_graph.specs.Arcs.{AreInside};
ghost use Rattle.crn_graph.specs.Forest.{DoLeadBack};
ghost use Rattle.crn_indep_check.specs.Shown.{GivesRow, IsProofForm};
ghost use Rattle.crn_indep.specs.Inner.Ties.{AddsPair, AreTieArcs, AreTieArcsTo};

use crn_cert::RankProof;
use crn_graph::Arc;
use crn_indep_check::{draws_at, next_row};
use crn_net::Network;
use crn_vec::NoMemory;
use std::alloc::Global;

// Adds the steps from r to q and back.
fn push_pair(arcs: &mut Vec<Arc>, r: u32, q: u32) -> Result<(), NoMemory>
    requires { (1 ≤ r) × (1 ≤ q) }
    ensures { OnOk result (AddsPair r q arcs.old.items arcs.new.items) }
{
    arcs.push(Arc {
        from: r as usize - 1,
        to: q as usize - 1,
        reaction: r,
    })?;
    arcs.push(Arc {
        from: q as usize - 1,
        to: r as usize - 1,
        reaction: q,
    })?;
    Ok(())
}

// Adds the steps between a reaction and each member of the base on which it draws, by the row of its combination.
fn push_drawn(
    arcs: &mut Vec<Arc>,
    net: &Network,
    proof: &RankProof,
    r: u32,
    row: usize,
) -> Result<(), NoMemory>
    requires form { IsProofForm net.now proof.now }
    requires inside { IsFrom 1 (length net.now.reactions) r }
    requires row { GivesRow net.now proof.now r (Some row) }
    requires before { AreTieArcsTo net.now proof.now r arcs.old.items }
    ensures { OnOk result (AreTieArcsTo net.now proof.now (r + 1) arcs.new.items) }
{
    let base = proof.base.as_slice();
    for place in 0..base.len() {
        if draws_at(net, proof, r, row, place) {
            push_pair(arcs, r, base[place])?;
        }
    }
    Ok(())
}

// Adds the steps between a reaction and whatever it draws on.
fn push_ties(
    arcs: &mut Vec<Arc>,
    net: &Network,
    proof: &RankProof,
    r: u32,
    row: Option<usize>,
) -> Result<(), NoMemory>
    requires form { IsProofForm net.now proof.now }
    requires inside { IsFrom 1 (length net.now.reactions) r }
    requires row { GivesRow net.now proof.now r row }
    requires before { AreTieArcsTo net.now proof.now r arcs.old.items }
    ensures { OnOk result (AreTieArcsTo net.now proof.now (r + 1) arcs.new.items) }
{
    match row {
        None => Ok(()),
        Some(row) => push_drawn(arcs, net, proof, r, row),
    }
}

// The steps between tied reactions, by their places. A step is named by the reaction from which it goes, counted from 1.
pub(crate) fn tie_arcs(
    alloc: Global,
    net: &Network,
    proof: &RankProof,
) -> Result<Vec<Arc>, NoMemory>
    requires form { IsProofForm net.now proof.now }
    ensures ties { IfOk result (λ arcs. AreTieArcs net.now proof.now arcs.items) }
    ensures inside { IfOk result (λ arcs. AreInside (length net.now.reactions) arcs.items) }
    ensures back { IfOk result (λ arcs. DoLeadBack arcs.items) }
{
    let mut arcs = Vec::new(alloc);
    let mut count = 0;
    for k in 0..net.reactions() {
        let r = k as u32 + 1;
        let row = next_row(net, proof, r, &mut count);
        push_ties(&mut arcs, net, proof, r, row)?;
    }
    Ok(arcs)
}
