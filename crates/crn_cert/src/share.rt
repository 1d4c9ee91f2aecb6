ghost use Rattle.std.specs.Prelude.{◌≡◌, ◌↔◌, ◌≤◌, ◌<◌, ◌++◌, ℤ, List, [], ◌∷◌, IsTrue, length, map, OnOk, IfOk, IfSome};
ghost use Rattle.std.specs.Ordering.{int_eq};
ghost use Rattle.std.specs.Cmp.Lexicographic.{pointwise};
ghost use Rattle.indexmap.specs.IndexSet.{insert_key};
ghost use Rattle.crn_vec.specs.Lists.{IsIn};
ghost use Rattle.crn_cert.specs.Preorder.{listed};
ghost use Rattle.crn_cert.specs.Shares.{cuts_of, cuts_in, all_cuts, number_in, share_of as share};
ghost use Rattle.crn_cert.specs.Inner.Numbered.{AreNumbered, cuts_listed};

use crate::answer::Proof;
use crate::answers::Answers;
use crate::rows::Rows;
use crate::tree::Tree;
use crate::tree_node::TreeNode;
use crn_io::MAX_SHARED;
use crn_vec::{Ints, NoMemory, Nums};
use indexmap::IndexSet;
use std::alloc::Global;

/// Lists that are written once, and for each cut of the answers in document order the number of its list, counted from 1, or 0 if the cut is written with its numbers.
#[derive(Drop)]
pub struct Share {
    pub table: Rows,
    pub leaf: Nums,
}

// How many marks of lists there are.
const MARKS: usize = 1_024;

// The first distinct lists, no more than a document shares. Most cuts have the list of an earlier cut, so a list is first
// looked for by its mark, and in the set if that does not find it. Of lists with the same mark the last is found.
#[derive(Drop)]
struct Lists<'a> {
    set: IndexSet<&'a [i128]>,
    places: [u16; MARKS],
}

// The last 64 bits of a number, in which most numbers differ.
fn last_bits(x: &i128) -> u64 {
    (x.cast_unsigned() % (1 << 64)) as u64
}

// The mark of a list with one more number at its end. Two short lists of one length with numbers from -4 to 4 have different marks.
fn mark_with(mark: u64, x: &i128) -> u64 {
    mark.wrapping_mul(9).wrapping_add(last_bits(x))
}

// The mark of four numbers.
fn mark_of_four(a: &i128, b: &i128, c: &i128, d: &i128) -> u64 {
    mark_with(mark_with(mark_with(last_bits(a), b), c), d)
}

// The mark of a list with these numbers at its end. Every four are summed on their own, so that few sums wait for others.
fn mark_after(mark: u64, list: &[i128]) -> u64 {
    match list {
        [a, b, c, d, e, f, g, h, list @ ..] => {
            let first = mark_of_four(a, b, c, d).wrapping_mul(6_561);
            let both = first.wrapping_add(mark_of_four(e, f, g, h));
            mark_after(mark.wrapping_mul(43_046_721).wrapping_add(both), list)
        }
        [x, list @ ..] => mark_after(mark_with(mark, x), list),
        [] => mark,
    }
}

// The mark of a list. Few other lists have the same.
fn mark_of(list: &[i128]) -> usize
    ensures { result < MARKS }
{
    (mark_after(0, list).wrapping_mul(0x9e37_79b9_7f4a_7c15) >> 32) as usize % MARKS
}

// Whether two lists are the same, by few steps if they are short.
fn are_same(left: &[i128], right: &[i128]) -> bool
    ensures { IsTrue result ↔ (left.now ≡ right.now) }
{
    match left {
        [] => right.is_empty(),
        [a, b, c, d, left @ ..] => match right {
            [e, f, g, h, right @ ..] => {
                if *a != *e {
                    return false;
                }
                if *b != *f {
                    return false;
                }
                if *c != *g {
                    return false;
                }
                if *d != *h {
                    return false;
                }
                are_same(left, right)
            }
            _ => false,
        },
        [a, left @ ..] => match right {
            [] => false,
            [b, right @ ..] => {
                if *a != *b {
                    return false;
                }
                are_same(left, right)
            }
        },
    }
}

impl<'a> Lists<'a> {
    // No lists. It takes no memory.
    fn new(alloc: Global) -> Lists<'a>
        ensures { result.set.keys ≡ [] }
    {
        Lists {
            set: IndexSet::new(alloc),
            places: [0; MARKS],
        }
    }

    // The number of a list, counted from 1, if its mark finds it.
    fn find(&self, mark: usize, list: &[i128]) -> Option<u32>
        requires { mark < MARKS }
        ensures number { IfSome result
            (λ n. n ≡ number_in 1 (map (λ u. u.now) self.now.set.keys) list.now) }
        ensures known { IfSome result
            (λ _. IsIn list.now (map (λ u. u.now) self.now.set.keys)) }
    {
        let i = usize::from(self.places[mark]);
        let lists = self.set.as_slice();
        if i < lists.len() && are_same(lists[i], list) {
            return Some(i as u32 + 1);
        }
        None
    }

    // The number of a list, counted from 1, or 0. It is added if it is new and there is room for it.
    fn add(&mut self, mark: usize, list: &'a [i128]) -> Result<u32, NoMemory>
        requires mark { mark < MARKS }
        requires few { length self.old.set.keys ≤ MAX_SHARED }
        ensures full { MAX_SHARED ≤ length self.old.set.keys
            → OnOk result (self.new.set.keys ≡ self.old.set.keys) }
        ensures room { length self.old.set.keys < MAX_SHARED
            → OnOk result (map (λ u. u.now) self.new.set.keys
            ≡ insert_key (pointwise int_eq) (map (λ u. u.now) self.old.set.keys) list.now) }
        ensures number { IfOk result
            (λ n. n ≡ number_in 1 (map (λ u. u.now) self.new.set.keys) list.now) }
    {
        if self.set.len() < MAX_SHARED {
            let (i, _) = self.set.insert_full(list)?;
            self.places[mark] = i.min(MAX_SHARED) as u16;
            return Ok(i as u32 + 1);
        }
        match self.set.get_index_of(list) {
            Some(i) => Ok(i as u32 + 1),
            None => Ok(0),
        }
    }

    // The same, by few steps if the mark of the list finds it.
    fn number(&mut self, list: &'a [i128]) -> Result<u32, NoMemory>
        requires few { length self.old.set.keys ≤ MAX_SHARED }
        ensures full { MAX_SHARED ≤ length self.old.set.keys
            → OnOk result (self.new.set.keys ≡ self.old.set.keys) }
        ensures room { length self.old.set.keys < MAX_SHARED
            → OnOk result (map (λ u. u.now) self.new.set.keys
            ≡ insert_key (pointwise int_eq) (map (λ u. u.now) self.old.set.keys) list.now) }
        ensures number { IfOk result
            (λ n. n ≡ number_in 1 (map (λ u. u.now) self.new.set.keys) list.now) }
    {
        let mark = mark_of(list);
        match self.find(mark, list) {
            Some(n) => Ok(n),
            None => self.add(mark, list),
        }
    }
}

// The first distinct lists of cuts, no more than a document shares, and for each cut the number of its list, or 0.
#[derive(Drop)]
struct Numbered<'a> {
    lists: Lists<'a>,
    leaf: Nums,
}

impl<'a> Numbered<'a> {
    // No cuts have been added.
    fn new(alloc: Global) -> Result<Numbered<'a>, NoMemory>
        ensures { IfOk result (λ made. AreNumbered made.lists.set.keys made.leaf.list []) }
    {
        Ok(Numbered {
            lists: Lists::new(alloc),
            leaf: Nums::with_room(alloc, 0)?,
        })
    }

    // Adds a cut.
    fn add(&mut self, list: &'a [i128]) -> Result<(), NoMemory>
        requires few { length self.old.lists.set.keys ≤ MAX_SHARED }
        ensures few { OnOk result (length self.new.lists.set.keys ≤ MAX_SHARED) }
        ensures added { OnOk result ((us : List (List ℤ)) →
            AreNumbered self.old.lists.set.keys self.old.leaf.list us →
            AreNumbered self.new.lists.set.keys self.new.leaf.list (us ++ list.now ∷ [])) }
    {
        let number = self.lists.number(list)?;
        self.leaf.push(number)?;
        Ok(())
    }

    // Adds the cut of a node, if it has one.
    fn add_node(&mut self, node: &'a TreeNode) -> Result<(), NoMemory>
        requires few { length self.old.lists.set.keys ≤ MAX_SHARED }
        ensures few { OnOk result (length self.new.lists.set.keys ≤ MAX_SHARED) }
        ensures added { OnOk result ((us : List (List ℤ)) →
            AreNumbered self.old.lists.set.keys self.old.leaf.list us →
            AreNumbered self.new.lists.set.keys self.new.leaf.list
            (us ++ cuts_listed (listed node.now ∷ []))) }
    {
        match node {
            TreeNode::CutA(list) => self.add(list.as_slice()),
            TreeNode::CutB(list) => self.add(list.as_slice()),
            _ => Ok(()),
        }
    }

    // Adds the cuts of a tree, in preorder.
    fn add_tree(&mut self, tree: &'a Tree) -> Result<(), NoMemory>
        requires few { length self.old.lists.set.keys ≤ MAX_SHARED }
        ensures few { OnOk result (length self.new.lists.set.keys ≤ MAX_SHARED) }
        ensures added { OnOk result ((us : List (List ℤ)) →
            AreNumbered self.old.lists.set.keys self.old.leaf.list us →
            AreNumbered self.new.lists.set.keys self.new.leaf.list
            (us ++ cuts_of tree.now)) }
    {
        for node in tree.nodes() {
            self.add_node(node)?;
        }
        Ok(())
    }

    // Adds the cuts of a proof's trees.
    fn add_proof(&mut self, proof: &'a Proof) -> Result<(), NoMemory>
        requires few { length self.old.lists.set.keys ≤ MAX_SHARED }
        ensures few { OnOk result (length self.new.lists.set.keys ≤ MAX_SHARED) }
        ensures added { OnOk result ((us : List (List ℤ)) →
            AreNumbered self.old.lists.set.keys self.old.leaf.list us →
            AreNumbered self.new.lists.set.keys self.new.leaf.list (us ++ cuts_in proof.now)) }
    {
        match proof {
            Proof::One(tree) => self.add_tree(tree),
            Proof::Two(tree, second) => {
                self.add_tree(tree)?;
                self.add_tree(second)
            }
            _ => Ok(()),
        }
    }
}

// The lists and numbers of all cuts of the answers.
fn number_all<'a>(alloc: Global, answers: &'a Answers) -> Result<Numbered<'a>, NoMemory>
    ensures { IfOk result
        (λ made. AreNumbered made.lists.set.keys made.leaf.list (all_cuts answers.now)) }
{
    let mut made = Numbered::new(alloc)?;
    for k in 0..answers.len() {
        made.add_proof(&answers.get(k + 1).proof)?;
    }
    Ok(made)
}

// The lists in their own memory.
fn rows_of(alloc: Global, lists: &IndexSet<&[i128]>) -> Result<Rows, NoMemory>
    ensures { IfOk result (λ made. made ≡ map (λ u. u.now) lists.now.keys) }
{
    let mut rows = Rows::new(alloc)?;
    for list in lists.as_slice() {
        rows.push(Ints::from_slice(alloc, list)?)?;
    }
    Ok(rows)
}

/// The share of answers: the first distinct lists of their cuts, no more than a document shares, and for each cut the number of its list.
///
/// It keeps a reference to each list of the share while it runs.
pub fn share_of(alloc: Global, answers: &Answers) -> Result<Share, NoMemory>
    ensures table { IfOk result (λ made. made.table ≡ (share MAX_SHARED answers.now).table) }
    ensures leaf { IfOk result (λ made. made.leaf.list ≡ (share MAX_SHARED answers.now).leaf) }
{
    let Numbered { lists, leaf } = number_all(alloc, answers)?;
    let table = rows_of(alloc, &lists.set)?;
    Ok(Share { table, leaf })
}
