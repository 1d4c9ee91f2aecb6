ghost use Rattle.std.specs.Prelude.{◌≡◌, ◌≢◌, ◌≤◌, ◌<◌, ◌+◌, ◌↔◌, [], None, length, drop, unsigned_abs, slice_index_or, IfOk};
ghost use Rattle.std.specs.List.{AllByRecursion};
ghost use Rattle.crn_vec.specs.declared.limits.TheConstants.{MAX_AMOUNT, MAX_COMPLEXES, MAX_SPECIES};
ghost use Rattle.crn_vec.specs.Confluence.{IsRegular};
ghost use Rattle.crn_vec.specs.Elementary.{width};
ghost use Rattle.crn_vec.specs.NetSignals.{IsShapeOf, opposite_shape};
ghost use Rattle.crn_vec.specs.Network.{minus};
ghost use Rattle.crn_vec.specs.Signals.{complex_at, is_shelf_closed, pair_kind, shelf_kinds, shelf_matrix, top_kind};
ghost use Rattle.crn_vec.specs.Systems.{kind_at};
ghost use Rattle.crn_vec.specs.Vectors.{AreWithin, entry};
ghost use Rattle.crn_cert.specs.Ranges.{IsNarrow};
ghost use Rattle.crn_shape.specs.Shapes.{AreForShape, no_pair, shape_of};
ghost use Rattle.crn_shape.specs.Sides.{AreClassesBy, AreSides};

use crate::kinds::{pair_kind, row_kind, shelves, signs, top_kind};
use crate::pairs::{LinkedPair, linked_pairs, negate_sums};
use crate::rows::entry_with;
use crate::tops::{Tops, terminal_classes};
use crn_cert::Rows;
use crn_net::Network;
use crn_vec::{Kind, NoMemory, Sign, is_all_zero};
use std::alloc::Global;
use std::marker::Model;

/// What the sign problem of signals depends on: a network, its terminal strong classes, and the linked pairs within
/// them, each with the sum of a vector over a side. Contracts see the shape that signals are defined over.
#[derive(Drop)]
pub struct Shape<'a> {
    net: &'a Network,
    tops: Tops,
    pairs: Vec<LinkedPair>,
}

impl<'a> Model for Shape<'a> {
    ghost use Rattle.crn_vec.specs.Signals.{Shape as SignalShape};
    ghost use Rattle.crn_shape.specs.Shapes.{AreForShape, shape_of};

    ghost Value = { SignalShape };

    ghost view = { λ s. shape_of s.net.now s.tops.of.items s.tops.count s.pairs.items };

    ghost invariant = { λ s.
        AreForShape s.net.now s.tops.of.items s.tops.count s.pairs.items };
}

impl<'a> Shape<'a> {
    /// The shape of a regular network and of a vector over its complexes, by the labels and exits of its strong
    /// classes and the sides of question 11.
    pub fn new(
        alloc: Global,
        net: &'a Network,
        labels: &[u32],
        exits: &[u32],
        sides: &Rows,
        vector: &[i128],
    ) -> Result<Shape<'a>, NoMemory>
        requires regular { IsRegular net.now }
        requires classes { AreClassesBy net.now labels.now exits.now }
        requires sides { AreSides net.now sides.now }
        requires long { length vector.now ≡ length net.now.complexes }
        requires narrow { AllByRecursion IsNarrow vector.now }
        ensures { IfOk result (λ made. IsShapeOf net.now vector.now made) }
    {
        let _ = net.species();
        let tops = terminal_classes(alloc, net, labels, exits)?;
        let pairs = linked_pairs(alloc, net, &tops, sides, vector)?;
        Ok(Shape { net, tops, pairs })
    }

    /// The shape of a network with these terminal classes and linked pairs.
    pub fn from_parts(net: &'a Network, tops: Tops, pairs: Vec<LinkedPair>) -> Shape<'a>
        requires { AreForShape net.now tops.of.items tops.count pairs.items }
        ensures { result ≡ shape_of net.now tops.of.items tops.count pairs.items }
    {
        Shape { net, tops, pairs }
    }

    /// Gives each linked pair the opposite sum, that of the negative of the vector.
    pub fn negate(&mut self)
        ensures { self.new ≡ opposite_shape self.old }
    {
        negate_sums(&mut self.pairs);
    }

    /// The number of terminal strong classes.
    pub fn classes(&self) -> usize
        ensures count { result ≡ self.now.count }
        ensures limit { result ≤ MAX_COMPLEXES }
    {
        self.tops.count
    }

    /// The number of species.
    pub fn species(&self) -> usize
        ensures count { result ≡ self.now.species }
        ensures limit { result ≤ MAX_SPECIES }
    {
        self.net.species()
    }

    /// The number of complexes.
    pub fn complexes(&self) -> usize
        ensures count { result ≡ length self.now.complexes }
        ensures tops { result ≡ length self.now.tops }
        ensures limit { result ≤ MAX_COMPLEXES }
    {
        self.net.complexes()
    }

    /// The number of linked pairs.
    pub fn pairs(&self) -> usize
        ensures count { result ≡ length self.now.pairs }
        ensures limit { result < length self.now.complexes }
    {
        self.pairs.len()
    }

    /// The amounts of a complex, one for each species.
    pub fn complex(&self, c: usize) -> &[i128]
        requires { c < length self.now.complexes }
        ensures value { result.now ≡ complex_at self.now c }
        ensures long { length result.now ≡ self.now.species }
        ensures small { AreWithin MAX_AMOUNT result.now }
    {
        self.net.vector(c)
    }

    /// The second complex of a linked pair minus the first, one number for each species.
    pub fn difference(&self, i: usize) -> &[i128]
        requires { i < length self.now.pairs }
        ensures value { let pair = slice_index_or self.now.pairs i no_pair in
            result.now ≡ minus (complex_at self.now pair.high) (complex_at self.now pair.low) }
        ensures long { length result.now ≡ self.now.species }
        ensures small { AreWithin MAX_AMOUNT result.now }
    {
        self.net.reaction_vector(self.pairs[i].reaction)
    }

    /// The number of rows of system 5: one for each complex and for each linked pair.
    pub fn rows(&self) -> usize
        ensures count { result ≡ length (shelf_matrix self.now).rows }
        ensures tops { length self.now.tops ≡ length self.now.complexes }
        ensures widths { AllByRecursion (λ row. length row ≡ self.now.species + 1)
            (shelf_matrix self.now).rows }
        ensures limit { result < MAX_COMPLEXES + MAX_COMPLEXES }
    {
        let _ = self.net.species();
        self.net.complexes() + self.pairs.len()
    }

    /// An entry of system 5, whose columns are the species and the level.
    pub fn entry(&self, row: usize, column: usize) -> i128
        requires row { row < length (shelf_matrix self.now).rows }
        requires column { column ≤ self.now.species }
        ensures value { result
            ≡ entry (slice_index_or (shelf_matrix self.now).rows row []) column }
        ensures small { unsigned_abs result ≤ MAX_AMOUNT }
    {
        let complexes = self.net.complexes();
        if row < complexes {
            entry_with(self.complex(row), -1, column)
        } else {
            entry_with(self.difference(row - complexes), 0, column)
        }
    }

    /// The kind of the row of a complex if these shelves are chosen.
    pub fn complex_kind(&self, shelves: &[Sign], c: usize) -> Kind
        requires { c < length self.now.complexes }
        ensures { result ≡ top_kind shelves.now (slice_index_or self.now.tops c None) }
    {
        top_kind(shelves, self.tops.of[c])
    }

    /// The kind of the row of a linked pair if these shelves are chosen.
    pub fn pair_kind(&self, shelves: &[Sign], i: usize) -> Kind
        requires { i < length self.now.pairs }
        ensures { result ≡ pair_kind shelves.now (slice_index_or self.now.pairs i no_pair) }
    {
        pair_kind(shelves, &self.pairs[i])
    }

    /// The number of choices: a shelf for each terminal class, and a sign for each species.
    pub fn choices(&self) -> usize
        ensures count { result ≡ self.now.count + self.now.species }
        ensures limit { result ≤ MAX_COMPLEXES + MAX_SPECIES }
    {
        self.tops.count + self.net.species()
    }

    /// The options of a prefix that are signs of species.
    pub fn signs<'p>(&self, prefix: &'p [Sign]) -> &'p [Sign]
        ensures { result.now ≡ drop self.now.count prefix.now }
    {
        signs(prefix, self.tops.count)
    }

    /// The kind of a coordinate of part A at a prefix: species, level, complexes, linked pairs.
    pub fn kind(&self, prefix: &[Sign], coordinate: usize) -> Kind
        requires { coordinate < width (shelf_matrix self.now) }
        ensures { result ≡ kind_at (shelf_kinds self.now prefix.now) coordinate }
    {
        let species = self.net.species();
        if coordinate < species {
            return row_kind(self.signs(prefix), coordinate);
        }
        if coordinate == species {
            return Kind::Free;
        }
        let row = coordinate - species - 1;
        let shelves = shelves(prefix, self.tops.count);
        if row < self.net.complexes() {
            self.complex_kind(shelves, row)
        } else {
            self.pair_kind(shelves, row - self.net.complexes())
        }
    }

    /// Whether a prefix is closed: all shelves are chosen and middle, or all choices are made and every species is
    /// zero.
    pub fn is_closed(&self, prefix: &[Sign]) -> bool
        ensures { result ≡ is_shelf_closed self.now prefix.now }
    {
        let count = self.tops.count;
        if count <= prefix.len() && is_all_zero(shelves(prefix, count)) {
            return true;
        }
        prefix.len() == count + self.net.species() && is_all_zero(signs(prefix, count))
    }
}
