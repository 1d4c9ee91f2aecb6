ghost use Rattle.std.specs.Prelude.{◌≡◌, ◌≤◌, ◌<◌, ◌-◌, [], ◌∷◌, ◌++◌, length, slice_get, Some, IfOk};
ghost use Rattle.crn_cert.specs.Answers.{verdicts_of};

use crate::answer::Answer;
use crate::verdicts::Verdicts;
use crn_vec::NoMemory;
use std::alloc::Global;
use std::marker::Model;

/// Answers in the order of their questions, at most fifteen. Contracts see the list.
#[derive(Drop)]
pub struct Answers {
    items: Vec<Answer>,
}

impl Model for Answers {
    ghost use Rattle.std.specs.Prelude.{◌≤◌, List, vec_len, vec_capacity};
    ghost use Rattle.crn_cert.specs.declared.answer.Answer.{Answer};

    ghost Value = { List Answer };

    ghost use Rattle.crn_cert.specs.contracts.tree.Tree as tree;
    ghost use Rattle.std.specs.Coded.{codes};

    ghost coded = { Prim.hlevel (codes, tree.the_row.coded) };

    ghost view = { λ s. s.items.items };

    ghost invariant = { λ s. (vec_len s.items ≤ 15) × (15 ≤ vec_capacity s.items) };
}

impl Answers {
    /// An empty list with memory for fifteen.
    pub fn new(alloc: Global) -> Result<Answers, NoMemory>
        ensures { IfOk result (λ made. made ≡ []) }
    {
        Ok(Answers {
            items: Vec::with_capacity(alloc, 15)?,
        })
    }

    /// Adds the answer to the next question. It takes no memory.
    pub fn push(&mut self, answer: Answer)
        requires { length self.old < 15 }
        ensures { self.new ≡ self.old ++ answer ∷ [] }
    {
        let _ = self.items.push(answer);
    }

    /// The number of answers, at most fifteen.
    pub fn len(&self) -> usize
        ensures count { result ≡ length self.now }
        ensures few { result ≤ 15 }
    {
        self.items.len()
    }

    /// The answer at a place counted from 1: in a full list, the answer to this question.
    pub fn get(&self, question: usize) -> &Answer
        requires some { 1 ≤ question }
        requires built { question ≤ length self.now }
        ensures { slice_get self.now (question - 1) ≡ Some result.now }
    {
        &self.items[question - 1]
    }

    /// The verdicts of the answers, in order. The answers are consumed, also if it runs out of memory.
    pub fn into_verdicts(self) -> Result<Verdicts, NoMemory>
        ensures { IfOk result (λ made. made ≡ verdicts_of self) }
    {
        let alloc = *self.items.allocator();
        let mut verdicts = Verdicts::new(alloc)?;
        for answer in self.items {
            verdicts.push(answer.verdict);
        }
        Ok(verdicts)
    }
}
