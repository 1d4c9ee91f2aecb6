ghost use Rattle.std.specs.Prelude.{◌≡◌, ◌≤◌, ◌<◌, ◌↔◌, ◌==◌, ◌&&◌, IsTrue, IfOk, [], length, slice_index_or};
ghost use Rattle.std.specs.List.{list_any};
ghost use Rattle.crn_vec.specs.Lists.{IsIn};
ghost use Rattle.crn_net.specs.Inner.Marks.{slot_of};
ghost use Rattle.crn_net.specs.Inner.Steps.{NotesReaction};

use crate::fault::NetFault;
use crn_vec::{MAX_COMPLEXES, MAX_REACTIONS, NoMemory};
use std::alloc::Global;
use std::marker::Model;

// The number of slots. Of 240 reactions, few share one.
const SLOTS: usize = 1024;

// Reactions, each once, in the order in which they were noted. The mark of a slot is the place, counted from 1, of the last
// of them that is in it, or 0 if there is none: so a reaction whose slot has mark 0 is new, and one that is not new is mostly
// found where the mark says.
#[derive(Drop)]
pub(crate) struct Reactions {
    list: Vec<(usize, usize)>,
    marks: [u8; SLOTS],
}

impl Model for Reactions {
    ghost use Rattle.std.specs.Prelude.{List, ℕ};
    ghost use Rattle.crn_net.specs.Inner.Marks.{AreMarked};

    ghost Value = { List (ℕ × ℕ) };

    ghost view = { λ r. r.list.items };

    ghost invariant = { λ r. AreMarked r.marks r.list.items };
}

// The slot of a reaction. As the factor is odd, the reactions of one product are in slots of their own.
fn slot(reaction: (usize, usize)) -> usize
    ensures slot { result ≡ slot_of reaction }
    ensures inside { result < SLOTS }
{
    let number = reaction
        .0
        .wrapping_mul(MAX_COMPLEXES + 1)
        .wrapping_add(reaction.1);
    number % SLOTS
}

// Whether a reaction is at a place.
fn is_reaction_at(reactions: &[(usize, usize)], place: usize, reaction: (usize, usize)) -> bool
    ensures { let is_there = slice_index_or reactions.now place reaction ≡ reaction in
        IsTrue result → (place < length reactions.now) × is_there }
{
    place < reactions.len() && reactions[place].0 == reaction.0 && reactions[place].1 == reaction.1
}

// Whether a reaction is among these. They are few, so it looks at each.
fn has_reaction(reactions: &[(usize, usize)], reaction: (usize, usize)) -> bool
    ensures { result ≡ list_any
        (λ known. known.0 == reaction.0 && known.1 == reaction.1) reactions.now }
{
    reactions
        .iter()
        .any(|known| known.0 == reaction.0 && known.1 == reaction.1)
}

impl Reactions {
    // No reactions, and memory for as many as a network may have.
    pub(crate) fn new(alloc: Global) -> Result<Reactions, NoMemory>
        ensures { IfOk result (λ made. made ≡ []) }
    {
        Ok(Reactions {
            list: Vec::with_capacity(alloc, MAX_REACTIONS)?,
            marks: [0; SLOTS],
        })
    }

    pub(crate) fn allocator(&self) -> Global {
        *self.list.allocator()
    }

    pub(crate) fn as_slice(&self) -> &[(usize, usize)]
        ensures { result.now ≡ self.now }
    {
        self.list.as_slice()
    }

    pub(crate) fn into_list(self) -> Vec<(usize, usize)>
        ensures { result.items ≡ self }
    {
        self.list
    }

    // Whether a reaction is among these.
    fn has(&self, reaction: (usize, usize)) -> bool
        ensures { IsTrue result ↔ IsIn reaction self.now }
    {
        let mark = usize::from(self.marks[slot(reaction)]);
        if mark == 0 {
            return false;
        }
        if is_reaction_at(self.list.as_slice(), mark - 1, reaction) {
            return true;
        }
        has_reaction(self.list.as_slice(), reaction)
    }

    // Adds a reaction if it is new.
    pub(crate) fn note(&mut self, reaction: (usize, usize)) -> Result<(), NetFault>
        requires { length self.old ≤ MAX_REACTIONS }
        ensures { NotesReaction self.old reaction result self.new }
    {
        if self.has(reaction) {
            return Ok(());
        }
        if self.list.len() >= MAX_REACTIONS {
            return Err(NetFault::TooManyReactions);
        }
        self.list.push(reaction)?;
        self.marks[slot(reaction)] = self.list.len() as u8;
        Ok(())
    }
}
