ghost use Rattle.std.specs.Prelude.{◌≡◌, ◌≤◌, ◌<◌, ◌-◌, [], ◌∷◌, ◌++◌, length, slice_index_or, OnOk, OnErr, IfOk};
ghost use Rattle.crn_ctree.specs.Shared.{IsShared, place_of, said_with};
ghost use Rattle.crn_ctree.specs.Gives.{said_by};
ghost use Rattle.crn_ctree.specs.Inner.Kinds.{part_of};

use crate::cut::Part;
use crate::node::Node;
use crn_vec::{Ints, NoMemory};
use std::alloc::Global;
use std::marker::Model;

/// A cut whose multipliers are those of a shared vector, by its place, counted from 1.
#[derive(Clone, Copy, Debug, PartialEq, Eq)]
pub enum SharedCut {
    /// A cut of part A.
    A(u32),
    /// A cut of part B.
    B(u32),
}

impl SharedCut {
    // The place of the shared vector, counted from 1.
    pub(crate) fn place(self) -> u32
        ensures { result ≡ place_of self }
    {
        match self {
            SharedCut::A(place) | SharedCut::B(place) => place,
        }
    }

    // The part that the cut rules out.
    pub(crate) fn part(self) -> Part
        ensures { result ≡ part_of self }
    {
        match self {
            SharedCut::A(_) => Part::A,
            SharedCut::B(_) => Part::B,
        }
    }

    // The cut with these multipliers.
    pub(crate) fn node<'a>(self, multipliers: &'a [i128]) -> Node<'a>
        ensures { said_by result ≡ said_with self multipliers.now }
    {
        match self {
            SharedCut::A(_) => Node::CutA(multipliers),
            SharedCut::B(_) => Node::CutB(multipliers),
        }
    }
}

/// The vectors of a document that its trees share. Contracts see them as a list.
#[derive(Drop)]
pub struct SharedTable {
    vectors: Vec<Ints>,
}

impl Model for SharedTable {
    ghost use Rattle.std.specs.Prelude.{List, ℤ, map};
    ghost use Rattle.std.specs.List.{AllByRecursion};
    ghost use Rattle.crn_vec.specs.Kept.{KeptInts};
    ghost use Rattle.crn_ctree.specs.Shared.{IsShared};

    ghost Value = { List (List ℤ) };

    ghost view = { λ s. map (λ (v : KeptInts). v.list) s.vectors.items };

    ghost invariant = { λ s. AllByRecursion IsShared
        (map (λ (v : KeptInts). v.list) s.vectors.items) };
}

impl SharedTable {
    /// No vectors.
    pub fn new(alloc: Global) -> Result<SharedTable, NoMemory>
        ensures { IfOk result (λ made. made ≡ []) }
    {
        Ok(SharedTable {
            vectors: Vec::new(alloc),
        })
    }

    /// Adds a vector at the end. If it runs out of memory, the table is as before.
    pub fn push(&mut self, numbers: &[i128]) -> Result<(), NoMemory>
        requires { IsShared numbers.now }
        ensures ok { OnOk result (self.new ≡ self.old ++ numbers.now ∷ []) }
        ensures err { OnErr result (self.new ≡ self.old) }
    {
        let alloc = *self.vectors.allocator();
        let vector = Ints::from_slice(alloc, numbers)?;
        self.vectors.push(vector)?;
        Ok(())
    }

    /// The number of vectors.
    pub fn len(&self) -> usize
        ensures { result ≡ length self.now }
    {
        self.vectors.len()
    }

    // The vector at a place, counted from 0.
    pub(crate) fn at(&self, i: usize) -> &[i128]
        requires { i < length self.now }
        ensures value { result.now ≡ slice_index_or self.now i [] }
        ensures shared { IsShared result.now }
    {
        self.vectors[i].as_slice()
    }

    /// The vector at a place, counted from 1.
    pub fn get(&self, place: u32) -> &[i128]
        requires low { 1 ≤ place }
        requires high { place ≤ length self.now }
        ensures value { result.now ≡ slice_index_or self.now (place - 1) [] }
        ensures shared { IsShared result.now }
    {
        self.vectors[place as usize - 1].as_slice()
    }
}
