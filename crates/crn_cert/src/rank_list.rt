ghost use Rattle.std.specs.Prelude.{◌≡◌, ◌<◌, [], ◌∷◌, ◌++◌, length, slice_get, Some, OnOk, OnErr, IfOk};

use crate::answer::RankProof;
use crn_vec::NoMemory;
use std::alloc::Global;
use std::marker::Model;

/// A list of proofs of ranks: of a deficiency, one for each linkage class in order.
#[derive(Drop)]
pub struct RankList {
    items: Vec<RankProof>,
}

impl Model for RankList {
    ghost use Rattle.std.specs.Prelude.{List};
    ghost use Rattle.crn_cert.specs.declared.answer.RankProof.{RankProof};

    ghost Value = { List RankProof };

    ghost view = { λ s. s.items.items };
}

impl RankList {
    /// An empty list.
    pub fn new(alloc: Global) -> Result<RankList, NoMemory>
        ensures { IfOk result (λ made. made ≡ []) }
    {
        Ok(RankList {
            items: Vec::new(alloc),
        })
    }

    /// Adds a proof at the end. If it runs out of memory, the list is as before.
    pub fn push(&mut self, proof: RankProof) -> Result<(), NoMemory>
        ensures ok { OnOk result (self.new ≡ self.old ++ proof ∷ []) }
        ensures err { OnErr result (self.new ≡ self.old) }
    {
        self.items.push(proof)?;
        Ok(())
    }

    /// The number of proofs.
    pub fn len(&self) -> usize
        ensures { result ≡ length self.now }
    {
        self.items.len()
    }

    /// Proof `i`, counted from 0.
    pub fn row(&self, i: usize) -> &RankProof
        requires { i < length self.now }
        ensures { slice_get self.now i ≡ Some result.now }
    {
        &self.items[i]
    }
}
