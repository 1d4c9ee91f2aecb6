ghost use Rattle.std.specs.Prelude.{◌↔◌, ◌≤◌, length, IfOk, OnOk, IsTrue};
ghost use Rattle.crn_vec.specs.CutPairs.{IsBetween};
ghost use Rattle.crn_graph.specs.Arcs.{AreInside};
ghost use Rattle.crn_graph.specs.Inner.Arcs.{Adds, AreArcsOf};

use crn_net::Network;
use crn_vec::NoMemory;
use std::alloc::Global;

// Which steps a search may take.
#[derive(Clone, Copy, Drop)]
pub(crate) enum Way {
    // from the reactant of a reaction to its product
    Along,
    // from the product to the reactant
    Against,
    // both
    Links,
    // both, but none between these two complexes
    Round(usize, usize),
}

/// A step from a node to another, under a name. The nodes of a network are its complexes, and the name is the reaction, counted
/// from 1, by which the step goes.
#[derive(Clone, Copy, Drop)]
pub struct Arc {
    pub from: usize,
    pub to: usize,
    pub reaction: u32,
}

// Whether y and z are the complexes a and b, in either order.
fn is_between(a: usize, b: usize, y: usize, z: usize) -> bool
    ensures { IsTrue result ↔ IsBetween a b y z }
{
    (y == a && z == b) || (y == b && z == a)
}

// Adds the steps that a reaction from a to b allows.
fn push_steps(
    arcs: &mut Vec<Arc>,
    way: Way,
    a: usize,
    b: usize,
    reaction: u32,
) -> Result<(), NoMemory>
    ensures ok { OnOk result (Adds way a b reaction arcs.old.items arcs.new.items) }
{
    let there = Arc {
        from: a,
        to: b,
        reaction,
    };
    let back = Arc {
        from: b,
        to: a,
        reaction,
    };
    match way {
        Way::Along => arcs.push(there)?,
        Way::Against => arcs.push(back)?,
        Way::Links => {
            arcs.push(there)?;
            arcs.push(back)?;
        }
        Way::Round(c, d) => {
            if !is_between(c, d, a, b) {
                arcs.push(there)?;
                arcs.push(back)?;
            }
        }
    }
    Ok(())
}

// The steps of a network.
pub(crate) fn arcs_of(alloc: Global, net: &Network, way: Way) -> Result<Vec<Arc>, NoMemory>
    ensures steps { IfOk result (λ arcs. AreArcsOf net.now way arcs.items) }
    ensures some { IfOk result (λ arcs. 1 ≤ length net.now.complexes) }
    ensures inside { IfOk result (λ arcs. AreInside (length net.now.complexes) arcs.items) }
{
    let mut arcs = Vec::with_capacity(alloc, 2 * net.reactions())?;
    for r in 0..net.reactions() {
        push_steps(
            &mut arcs,
            way,
            net.reactant(r),
            net.product(r),
            r as u32 + 1,
        )?;
    }
    Ok(arcs)
}
