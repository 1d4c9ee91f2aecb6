ghost use Rattle.std.specs.Prelude.{◌≡◌, ◌<◌, [], ◌∷◌, ◌++◌, length, slice_index_or, IfOk, OnOk, OnErr};
ghost use Rattle.crn_cert.specs.Trees.{Level};

use crn_cert::Tree;
use crn_vec::NoMemory;
use std::alloc::Global;
use std::marker::Model;

/// A tree for each reaction, in their order. Contracts see the list of trees.
#[derive(Drop)]
pub struct EndoTrees {
    trees: Vec<Tree>,
}

impl Model for EndoTrees {
    ghost use Rattle.std.specs.Prelude.{List};
    ghost use Rattle.crn_cert.specs.Trees.{Plan};
    ghost use Rattle.crn_cert.specs.PlanCode.{plan_code};
    ghost use Rattle.std.specs.Coded.{codes};

    ghost Value = { List Plan };

    ghost coded = { Prim.hlevel (codes, plan_code) };

    ghost view = { λ s. s.trees.items };
}

impl EndoTrees {
    /// No trees.
    pub fn new(alloc: Global) -> Result<EndoTrees, NoMemory>
        ensures { IfOk result (λ made. made ≡ []) }
    {
        Ok(EndoTrees {
            trees: Vec::with_capacity(alloc, 0)?,
        })
    }

    /// Adds a tree at the end.
    pub fn push(&mut self, tree: Tree) -> Result<(), NoMemory>
        ensures ok { OnOk result (self.new ≡ self.old ++ tree ∷ []) }
        ensures err { OnErr result (self.new ≡ self.old) }
    {
        match self.trees.push(tree) {
            Ok(()) => Ok(()),
            Err(_) => Err(NoMemory),
        }
    }

    /// The tree of a reaction, counted from 0.
    pub fn tree(&self, i: usize) -> &Tree
        requires { i < length self.now }
        ensures { result.now ≡ slice_index_or self.now i Level }
    {
        &self.trees[i]
    }

    /// The number of trees.
    pub fn len(&self) -> usize
        ensures { result ≡ length self.now }
    {
        self.trees.len()
    }
}
