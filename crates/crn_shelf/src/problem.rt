ghost use Rattle.std.specs.Prelude.{◌≡◌, ◌≤◌, ◌<◌, ◌+◌, length, MatchResult};
ghost use Rattle.std.specs.List.{range_with_len};
ghost use Rattle.crn_vec.specs.Elementary.{width};
ghost use Rattle.crn_vec.specs.declared.limits.TheConstants.{MAX_BUDGET};
ghost use Rattle.crn_vec.specs.NetSystems.{reaction_system};
ghost use Rattle.crn_vec.specs.Signals.{shelf_kinds, shelf_matrix, signals};
ghost use Rattle.crn_sign.specs.Options.{AskKinds, word_count};
ghost use Rattle.crn_sign.specs.Search.{IsSearchEnd, IsSearchStop};
ghost use Rattle.crn_sign.specs.Settled.{SettlesOnly};
ghost use Rattle.crn_shelf.specs.Inner.Choices.{AreChoices, kinds_after};

use crate::choice::{Choice, choices_of, put_joined};
use crate::kinds::asked_of_kind;
use crate::system::shelf_matrix;
use crn_conc::{asked_of_row, reaction_matrix};
use crn_farkas::Solver;
use crn_net::Network;
use crn_shape::Shape;
use crn_sign::{
    Asked, Bits, FREE, SearchEnd, SearchStop, SignProblem, coordinates, put_asked, search,
};
use crn_vec::{Matrix, Sign};
use std::alloc::Global;
use std::slice::from_ref;

/// The sign problem of signals: the choices are the shelves of the terminal strong classes, then the
/// signs of the species.
#[derive(Drop)]
pub(crate) struct ShelfProblem<'a> {
    pub shape: &'a Shape<'a>,
    pub system: Matrix,
    pub matrix: Matrix,
    pub choices: Vec<Choice>,
    pub coordinates_b: Vec<usize>,
    ghost choices_are: { AreChoices shape.now choices.items },
    ghost coordinates_b_are: { coordinates_b.items ≡ range_with_len 0 (width matrix) },
    ghost part_a: { system ≡ shelf_matrix shape.now },
    ghost species: { length matrix.rows ≡ shape.now.species },
}

impl ShelfProblem<'_> {
    // Requires of all coordinates of part A what a prefix requires.
    fn ask(&self, prefix: &[Sign], asked: &mut [Bits])
        requires { length asked.old ≡ word_count self.now.system }
        ensures { AskKinds self.now.system (shelf_kinds self.now.shape.now prefix.now) asked.new }
    {
        let count = self.system.cols() + self.system.rows();
        for k in 0..count {
            put_asked(asked, k, asked_of_kind(self.shape.kind(prefix, k)));
        }
    }

    // No coordinate of part B: a shelf requires nothing of it.
    fn none(&self, _choices: usize) -> &[usize]
        requires { _choices ≤ self.now.shape.now.count }
        ensures { SettlesOnly (kinds_after self.now.shape.now self.now.matrix)
            (width self.now.matrix) _choices result.now }
    {
        &[]
    }

    // All coordinates of part B.
    fn all(&self, _choices: usize) -> &[usize]
        ensures { SettlesOnly (kinds_after self.now.shape.now self.now.matrix)
            (width self.now.matrix) _choices result.now }
    {
        &self.coordinates_b
    }

    // The coordinate of part B of a species, the last that this many choices choose.
    fn row(&self, _choices: usize, s: usize) -> &[usize]
        requires last { _choices ≡ self.now.shape.now.count + (s + 1) }
        requires inside { s < length self.now.matrix.rows }
        ensures { SettlesOnly (kinds_after self.now.shape.now self.now.matrix)
            (width self.now.matrix) _choices result.now }
    {
        let _ = self.matrix.rows();
        let k = self.matrix.cols() + s;
        from_ref(&self.coordinates_b[k])
    }
}

impl SignProblem for ShelfProblem<'_> {
    ghost use Rattle.std.specs.Prelude.{[]};
    ghost use Rattle.crn_vec.specs.Signals.{signals};

    ghost signed = { λ p. signals p.shape.now p.matrix };

    ghost are_sums = { λ p q words.
        AskKinds (shelf_matrix p.shape.now) (shelf_kinds p.shape.now q) words };

    ghost weak = { λ p. [] };

    fn length(&self) -> usize {
        let _ = self.shape.complexes();
        let _ = self.shape.pairs();
        let _ = self.shape.species();
        self.shape.choices()
    }

    fn matrix_a(&self) -> &Matrix {
        &self.system
    }

    fn matrix_b(&self) -> &Matrix {
        &self.matrix
    }

    fn weak_a(&self) -> &[u64] {
        &[]
    }

    fn begin_a(&self, sums: &mut [Bits], asked: &mut [Bits]) {
        self.ask(&[], asked);
        sums.copy_from_slice(asked);
    }

    fn settle_a(&self, prefix: &[Sign], above: &[Bits], sums: &mut [Bits], asked: &mut [Bits]) {
        let last = prefix.len() - 1;
        let choice = &self.choices[last];
        put_joined(above, choice.added(prefix[last]), sums, asked);
    }

    fn asked_b(&self, prefix: &[Sign], k: usize) -> Asked {
        let cols = self.matrix.cols();
        if k < cols {
            FREE
        } else {
            asked_of_row(self.shape.signs(prefix), k - cols)
        }
    }

    fn settled_b(&self, choices: usize) -> &[usize] {
        let shelves = self.shape.classes();
        if choices <= shelves {
            return self.none(choices);
        }
        let s = choices - shelves - 1;
        if s >= self.matrix.rows() {
            return self.all(choices);
        }
        self.row(choices, s)
    }

    fn closed(&self, prefix: &[Sign]) -> bool {
        self.shape.is_closed(prefix)
    }
}

/// Searches for a signal over a shape.
pub(crate) fn search_over(
    alloc: Global,
    net: &Network,
    shape: &Shape,
    budget: u32,
) -> Result<SearchEnd, SearchStop>
    requires low { 1 ≤ budget }
    requires high { budget ≤ MAX_BUDGET }
    requires species { shape.now.species ≡ length net.now.names }
    ensures { let w = signals shape.now (reaction_system net.now) in
        MatchResult result (IsSearchEnd w budget) (IsSearchStop w) }
{
    let system = shelf_matrix(alloc, shape)?;
    let matrix = reaction_matrix(alloc, net)?;
    let choices = choices_of(alloc, shape, &system)?;
    let coordinates_b = coordinates(alloc, &matrix)?;
    // It is made last, so that no way out drops it.
    let solver = Solver::new(alloc, &matrix)?;
    let problem = ShelfProblem {
        shape,
        system,
        matrix,
        choices,
        coordinates_b,
    };
    search(alloc, &problem, solver, budget, true)
}
