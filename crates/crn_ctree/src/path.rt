ghost use Rattle.std.specs.Prelude.{◌≡◌, ◌≢◌, ◌<◌, ◌≤◌, ◌++◌, vec_len, [], length, IfOk, IsTrue, ◌↔◌, vec_capacity};
ghost use Rattle.crn_vec.specs.Problems.{children};
ghost use Rattle.crn_vec.specs.Visits.{root};
ghost use Rattle.crn_ctree.specs.Due.{first, rest};
ghost use Rattle.crn_ctree.specs.Paths.{due_after, due_by};

use crn_vec::{NoMemory, Sign, is_all_zero};
use std::alloc::Global;
use std::marker::Model;

/// The prefixes of a tree that are still due, kept as the path of options to the next one.
#[derive(Drop)]
pub struct Path {
    options: Vec<Sign>,
    choices: usize,
    complete: bool,
}

impl Model for Path {
    ghost use Rattle.std.specs.Prelude.{◌≤◌, length, vec_capacity};
    ghost use Rattle.crn_ctree.specs.Paths.{KeptPath, due_by};

    ghost Value = { KeptPath };

    ghost view = { λ s. record { due = due_by s.complete s.options.items; choices = s.choices } };

    ghost invariant = { λ s. (length s.options.items ≤ s.choices)
        × (s.choices ≤ vec_capacity s.options) };
}

// Leads the path on to what is due after it, and says whether nothing is.
fn lead_on(options: &mut Vec<Sign>) -> bool
    ensures due { due_by result options.new.items ≡ due_after [] options.old.items }
    ensures room { vec_capacity options.new ≡ vec_capacity options.old }
    ensures length { vec_len options.new ≤ vec_len options.old }
{
    while let Some(option) = options.pop() {
        match option {
            Sign::Zero => {
                options.push_reserved(Sign::Plus);
                return false;
            }
            Sign::Plus => {
                if !is_all_zero(options) {
                    options.push_reserved(Sign::Minus);
                    return false;
                }
            }
            Sign::Minus => {}
        }
    }
    true
}

impl Path {
    /// The path to the root, with room for this many choices.
    pub fn new(alloc: Global, choices: usize) -> Result<Path, NoMemory>
        ensures due { IfOk result (λ made. made.due ≡ root) }
        ensures choices { IfOk result (λ made. made.choices ≡ choices) }
    {
        Ok(Path {
            options: Vec::with_capacity(alloc, choices)?,
            choices,
            complete: false,
        })
    }

    /// Whether nothing is due.
    pub fn is_complete(&self) -> bool
        ensures { IsTrue result ↔ (self.now.due ≡ []) }
    {
        self.complete
    }

    /// The prefix that is due.
    pub fn prefix(&self) -> &[Sign]
        requires { self.now.due ≢ [] }
        ensures first { result.now ≡ first self.now.due }
        ensures short { length result.now ≤ self.now.choices }
    {
        &self.options
    }

    /// Goes to the children of the prefix that is due.
    pub fn open(&mut self)
        requires some { self.old.due ≢ [] }
        requires room { length (first self.old.due) < self.old.choices }
        ensures due { self.new.due ≡ children (first self.old.due) ++ rest self.old.due }
        ensures choices { self.new.choices ≡ self.old.choices }
    {
        self.options.push_reserved(Sign::Zero);
    }

    /// Goes on to the next prefix that is due.
    pub fn close(&mut self)
        requires { self.old.due ≢ [] }
        ensures due { self.new.due ≡ rest self.old.due }
        ensures choices { self.new.choices ≡ self.old.choices }
    {
        self.complete = lead_on(&mut self.options);
    }
}
