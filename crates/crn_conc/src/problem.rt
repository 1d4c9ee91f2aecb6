ghost use Rattle.std.specs.Prelude.{◌≡◌, ◌≤◌, length};
ghost use Rattle.crn_vec.specs.declared.limits.TheConstants.{MAX_REACTIONS, MAX_SPECIES};
ghost use Rattle.std.specs.List.{range_with_len};
ghost use Rattle.crn_vec.specs.Concordance.{kinds_b_of};
ghost use Rattle.crn_sign.specs.Settled.{SettlesOnly};
ghost use Rattle.crn_vec.specs.Elementary.{width};
ghost use Rattle.crn_conc.specs.Inner.Rows.{AreWide};
ghost use Rattle.crn_conc.specs.Inner.Columns.{AreChosen};

use crate::chosen::Chosen;
use crate::influence::Influence;
use crate::kinds::{asked_of_row, put_asked_of_sums, put_extended, put_no_sums};
use crn_sign::{Asked, Bits, FREE, SignProblem};
use crn_vec::{Matrix, Sign, is_all_zero};
use std::slice::from_ref;

/// The sign problem of an influence table: the choices are the species in order.
#[derive(Drop)]
pub(crate) struct TableProblem<'a> {
    pub matrix: &'a Matrix,
    pub table: &'a Influence,
    pub columns: Vec<Chosen>,
    pub coordinates: Vec<usize>,
    ghost columns_are: { AreChosen matrix.now table.now columns.items },
    ghost coordinates_are: { coordinates.items ≡ range_with_len 0 (width matrix.now) },
    ghost reactions: { length table.now ≡ matrix.now.cols },
    ghost species: { AreWide (length matrix.now.rows) table.now },
    ghost few_reactions: { matrix.now.cols ≤ MAX_REACTIONS },
    ghost few_species: { length matrix.now.rows ≤ MAX_SPECIES },
}

impl TableProblem<'_> {
    // All coordinates.
    fn all(&self, _choices: usize) -> &[usize]
        ensures { SettlesOnly (kinds_b_of self.now.matrix.now)
            (width self.now.matrix.now) _choices result.now }
    {
        &self.coordinates
    }

    // The coordinate of the last species that this many choices choose.
    fn row(&self, choices: usize) -> &[usize]
        requires some { 1 ≤ choices }
        requires few { choices ≤ length self.now.matrix.now.rows }
        ensures { SettlesOnly (kinds_b_of self.now.matrix.now)
            (width self.now.matrix.now) choices result.now }
    {
        let last = self.matrix.cols() + (choices - 1);
        from_ref(&self.coordinates[last])
    }
}

impl SignProblem for TableProblem<'_> {
    ghost use Rattle.std.specs.Prelude.{[]};
    ghost use Rattle.crn_vec.specs.Concordance.{concordance};
    ghost use Rattle.crn_conc.specs.Inner.Columns.{AreSums};

    ghost signed = { λ p. concordance p.matrix.now p.table.now };

    ghost are_sums = { λ p q words. AreSums p.matrix.now p.table.now q words };

    ghost weak = { λ p. [] };

    fn length(&self) -> usize {
        let _ = self.matrix.cols();
        self.matrix.rows()
    }

    fn matrix_a(&self) -> &Matrix {
        self.matrix
    }

    fn matrix_b(&self) -> &Matrix {
        self.matrix
    }

    fn weak_a(&self) -> &[u64] {
        &[]
    }

    fn begin_a(&self, sums: &mut [Bits], asked: &mut [Bits]) {
        put_no_sums(sums);
        put_asked_of_sums(&self.columns[0].settled, sums, asked);
    }

    fn settle_a(&self, prefix: &[Sign], above: &[Bits], sums: &mut [Bits], asked: &mut [Bits]) {
        let choices = prefix.len();
        let chosen = &self.columns[choices];
        put_extended(above, &chosen.signs, prefix[choices - 1], sums);
        put_asked_of_sums(&chosen.settled, sums, asked);
    }

    fn asked_b(&self, prefix: &[Sign], k: usize) -> Asked {
        let cols = self.matrix.cols();
        if k < cols {
            FREE
        } else {
            asked_of_row(prefix, k - cols)
        }
    }

    fn settled_b(&self, choices: usize) -> &[usize] {
        if choices == 0 {
            return self.all(choices);
        }
        if choices > self.matrix.rows() {
            return self.all(choices);
        }
        self.row(choices)
    }

    fn closed(&self, prefix: &[Sign]) -> bool {
        prefix.len() == self.matrix.rows() && is_all_zero(prefix)
    }
}
