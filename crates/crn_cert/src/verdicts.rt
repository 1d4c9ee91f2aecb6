ghost use Rattle.std.specs.Prelude.{◌≡◌, ◌≤◌, ◌<◌, ◌-◌, [], ◌∷◌, ◌++◌, length, slice_get, Some, IfOk};

use crate::answer::Verdict;
use crn_vec::NoMemory;
use std::alloc::Global;
use std::marker::Model;

/// Verdicts in the order of their questions, at most fifteen. Contracts see the list.
#[derive(Drop)]
pub struct Verdicts {
    items: Vec<Verdict>,
}

impl Model for Verdicts {
    ghost use Rattle.std.specs.Prelude.{◌≤◌, List, vec_len, vec_capacity};
    ghost use Rattle.crn_cert.specs.declared.answer.Verdict.{Verdict};

    ghost Value = { List Verdict };

    ghost view = { λ s. s.items.items };

    ghost invariant = { λ s. (vec_len s.items ≤ 15) × (15 ≤ vec_capacity s.items) };
}

impl Verdicts {
    /// An empty list with memory for fifteen.
    pub fn new(alloc: Global) -> Result<Verdicts, NoMemory>
        ensures { IfOk result (λ made. made ≡ []) }
    {
        Ok(Verdicts {
            items: Vec::with_capacity(alloc, 15)?,
        })
    }

    /// Adds the verdict on the next question. It takes no memory.
    pub fn push(&mut self, verdict: Verdict)
        requires { length self.old < 15 }
        ensures { self.new ≡ self.old ++ verdict ∷ [] }
    {
        let _ = self.items.push(verdict);
    }

    /// The number of verdicts, at most fifteen.
    pub fn len(&self) -> usize
        ensures count { result ≡ length self.now }
        ensures few { result ≤ 15 }
    {
        self.items.len()
    }

    /// The verdict at a place counted from 1: in a full list, the verdict on this question.
    pub fn get(&self, question: usize) -> &Verdict
        requires some { 1 ≤ question }
        requires built { question ≤ length self.now }
        ensures { slice_get self.now (question - 1) ≡ Some result.now }
    {
        &self.items[question - 1]
    }
}
