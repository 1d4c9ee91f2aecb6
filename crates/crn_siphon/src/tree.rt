ghost use Rattle.std.specs.Prelude.{◌≡◌, ◌++◌, ◌∷◌, [], map, IfOk, OnOk};
ghost use Rattle.crn_siphon_check.specs.Preorder.{weights_of};

use crate::known::Fact;
use crn_siphon_check::SiphonNode;
use crn_vec::{Ints, NoMemory};
use std::alloc::Global;

/// Puts a node at the end.
pub(crate) fn put_node(nodes: &mut Vec<SiphonNode>, node: SiphonNode) -> Result<(), NoMemory>
    ensures { OnOk result (nodes.new.items ≡ nodes.old.items ++ node ∷ []) }
{
    nodes.push(node)?;
    Ok(())
}

/// The weights of known laws.
pub(crate) fn weights_of(alloc: Global, laws: &[Fact]) -> Result<Vec<Ints>, NoMemory>
    ensures { IfOk result (λ made. weights_of made.items ≡ map (λ law. law.numbers.list) laws.now) }
{
    let mut made = Vec::with_capacity(alloc, laws.len())?;
    for k in 0..laws.len() {
        made.push(laws[k].numbers.copy()?)?;
    }
    Ok(made)
}
