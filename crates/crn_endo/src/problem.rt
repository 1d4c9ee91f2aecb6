ghost use Rattle.std.specs.Prelude.{◌≡◌, ◌≤◌, ◌<◌, ◌+◌, ◌*◌, ◌==◌, ◌++◌, ◌∷◌, [], not, ℕ, List, length, filter, IfOk, MatchResult};
ghost use Rattle.crn_vec.specs.declared.limits.TheConstants.{MAX_BUDGET};
ghost use Rattle.crn_vec.specs.declared.signs.Sign.{Sign};
ghost use Rattle.crn_vec.specs.declared.signs.Sign.TheVariants.{Plus};
ghost use Rattle.crn_sign.specs.Options.{asked_kind, bit_of, word_count};
ghost use Rattle.crn_sign.specs.Search.{IsSearchEnd, IsSearchStop};
ghost use Rattle.crn_endo_check.specs.Slopes.{IsSmallEnough, others, reactants, slope_matrix};
ghost use Rattle.crn_endo.specs.Inner.Alone.{bare, slopes_alone};
ghost use Rattle.crn_endo.specs.Inner.Asked.{AreRaised, AskFirmly, ShowsWeak, firm_kind};
ghost use Rattle.crn_endo.specs.Inner.Chains.{AreChains};

use crate::chains::{Chains, chains_of};
use crn_endo_check::Slopes;
use crn_farkas::Solver;
use crn_net::Network;
use crn_sign::{
    Asked, Bits, FREE, NONE, SearchEnd, SearchStop, SignProblem, asked_of_sign, put_asked,
    put_weak, search, word_count,
};
use crn_vec::{Kind, Matrix, NoMemory, Sign};
use std::alloc::Global;

/// The sign problem of a reaction, with its further reactant complexes, the chains of the reactions, its matrices and the
/// coordinates that are at least 0 at some prefix. Part B requires nothing, and its matrix is as small as one can be.
#[derive(Drop)]
pub(crate) struct SlopeProblem<'a> {
    pub given: &'a Slopes<'a>,
    pub net: &'a Network,
    pub reaction: usize,
    pub further: Vec<usize>,
    pub chains: Chains,
    pub matrix: Matrix,
    pub nothing: Matrix,
    pub weak: Vec<u64>,
    ghost net_is: { given.now.net ≡ net.now },
    ghost reaction_is: { given.now.reaction ≡ reaction },
    ghost inside: { reaction < length net.now.reactions },
    ghost further_is: { further.items ≡ others net.now given.now.reaction },
    ghost chains_are: { AreChains net.now 0 chains.first.items chains.next.items },
    ghost matrix_is: { matrix ≡ slope_matrix given.now.net given.now.reaction },
    ghost nothing_is: { nothing ≡ bare },
    ghost weak_is: { ShowsWeak given.now.net given.now.reaction weak.items },
}

// What requires a number of a kind; one at least 0 is a weak positive one.
fn asked_of_kind(kind: Kind) -> Asked
    ensures { asked_kind result ≡ firm_kind kind }
{
    match kind {
        Kind::Zero => asked_of_sign(Sign::Zero),
        Kind::Pos | Kind::NonNeg => asked_of_sign(Sign::Plus),
        Kind::Neg => asked_of_sign(Sign::Minus),
        Kind::Free => FREE,
    }
}

// Makes each coordinate weak that is at least 0 at some prefix.
fn put_weak_words(given: &Slopes, matrix: &Matrix, words: &mut [u64])
    requires matrix { matrix.now ≡ slope_matrix given.now.net given.now.reaction }
    requires count { length words.old ≡ word_count matrix.now }
    requires none { (j : ℕ) → bit_of words.old j ≡ 0 }
    ensures count { length words.new ≡ length words.old }
    ensures shown { ShowsWeak given.now.net given.now.reaction words.new }
{
    for k in 0..matrix.cols() + matrix.rows() {
        if given.is_weak(k) {
            put_weak(words, k);
        }
    }
}

// The words of the coordinates that are at least 0 at some prefix.
fn weak_words(alloc: Global, given: &Slopes, matrix: &Matrix) -> Result<Vec<u64>, NoMemory>
    requires { matrix.now ≡ slope_matrix given.now.net given.now.reaction }
    ensures { IfOk result (λ made. ShowsWeak given.now.net given.now.reaction made.items) }
{
    let mut words = vec![in alloc; 0; word_count(matrix)]?;
    put_weak_words(given, matrix, &mut words);
    Ok(words)
}

// The complexes of a list but for one.
fn further_of(alloc: Global, complexes: &[usize], own: usize) -> Result<Vec<usize>, NoMemory>
    ensures { IfOk result (λ made. made.items ≡ filter (λ c. not (c == own)) complexes.now) }
{
    let mut made = Vec::with_capacity(alloc, complexes.len())?;
    for i in 0..complexes.len() {
        if complexes[i] != own {
            made.push(complexes[i])?;
        }
    }
    Ok(made)
}

// Requires a positive number, or one at least 0, of the rises along the reactions from a complex.
fn put_rises(net: &Network, words: &mut [Bits], c: usize, chains: &Chains)
    requires room { length net.now.names + length net.now.reactions ≤ length words.old * 64 }
    requires complex { c < length net.now.complexes }
    requires chains { AreChains net.now 0 chains.now.first.items chains.now.next.items }
    ensures { AreRaised net.now c (length net.now.reactions) words.old words.new }
{
    let species = net.species();
    let reactions = net.reactions();
    let mut q = chains.first[c];
    while q < reactions {
        put_asked(words, species + q, asked_of_sign(Sign::Plus));
        q = chains.next[q];
    }
}

impl SlopeProblem<'_> {
    // Requires of all coordinates of part A what a prefix requires.
    fn ask(&self, prefix: &[Sign], asked: &mut [Bits])
        requires { length asked.old ≡ word_count self.now.matrix }
        ensures { let s = self.now.given.now in
            AskFirmly s.net s.reaction prefix.now asked.new }
    {
        let count = self.matrix.cols() + self.matrix.rows();
        for k in 0..count {
            put_asked(asked, k, asked_of_kind(self.given.kind(prefix, k)));
        }
    }

    // Requires what the first option does, if nothing was required: a sign of the rise along the reaction itself.
    fn put_first(&self, option: Sign, words: &mut [Bits])
        requires { let s = self.now.given.now in AskFirmly s.net s.reaction [] words.old }
        ensures { let s = self.now.given.now in
            AskFirmly s.net s.reaction (option ∷ []) words.new }
    {
        put_asked(
            words,
            self.net.species() + self.reaction,
            asked_of_sign(option),
        );
    }

    // Requires what the option of a further complex adds, if the first option is plus.
    fn put_option(&self, i: usize, option: Sign, words: &mut [Bits])
        requires inside { i < length (others self.now.given.now.net self.now.given.now.reaction) }
        requires count { length words.old ≡ word_count self.now.matrix }
        ensures { let s = self.now.given.now in (p : List Sign) → length p ≡ i
            → AskFirmly s.net s.reaction (Plus ∷ p) words.old
            → AskFirmly s.net s.reaction (Plus ∷ (p ++ option ∷ [])) words.new }
    {
        let species = self.net.species();
        let reactions = self.net.reactions();
        let c = self.further[i];
        put_asked(
            words,
            species + reactions + reactions + i,
            asked_of_sign(option),
        );
        match option {
            Sign::Plus => put_rises(self.net, words, c, &self.chains),
            Sign::Zero => {}
            Sign::Minus => {}
        }
    }

    // Requires what a prefix requires, given what it does without its last option.
    fn put_last(&self, prefix: &[Sign], above: &[Bits], sums: &mut [Bits])
        requires before { let s = self.now.given.now in
            (p : List Sign) × (o : Sign) × (prefix.now ≡ p ++ o ∷ [])
            × AskFirmly s.net s.reaction p above.now }
        requires few { let s = self.now.given.now in
            length prefix.now ≤ 1 + length (others s.net s.reaction) }
        requires long { length above.now ≡ word_count self.now.matrix }
        requires sums { length sums.old ≡ word_count self.now.matrix }
        ensures { let s = self.now.given.now in
            AskFirmly s.net s.reaction prefix.now sums.new }
    {
        let last = prefix.len() - 1;
        if last == 0 {
            sums.copy_from_slice(above);
            self.put_first(prefix[0], sums);
            return;
        }
        match prefix[0] {
            Sign::Plus => {
                sums.copy_from_slice(above);
                self.put_option(last - 1, prefix[last], sums);
            }
            _ => self.ask(prefix, sums),
        }
    }
}

impl SignProblem for SlopeProblem<'_> {
    ghost use Rattle.crn_endo.specs.Inner.Alone.{slopes_alone};

    ghost signed = { λ p. slopes_alone p.given.now.net p.given.now.reaction };

    ghost are_sums = { λ p q words. AskFirmly p.given.now.net p.given.now.reaction q words };

    ghost weak = { λ p. p.weak.items };

    fn length(&self) -> usize {
        self.given.choices()
    }

    fn matrix_a(&self) -> &Matrix {
        &self.matrix
    }

    fn matrix_b(&self) -> &Matrix {
        &self.nothing
    }

    fn weak_a(&self) -> &[u64] {
        &self.weak
    }

    fn begin_a(&self, sums: &mut [Bits], asked: &mut [Bits]) {
        sums.fill(NONE);
        asked.fill(NONE);
    }

    fn settle_a(&self, prefix: &[Sign], above: &[Bits], sums: &mut [Bits], asked: &mut [Bits]) {
        self.put_last(prefix, above, sums);
        asked.copy_from_slice(sums);
    }

    fn asked_b(&self, _prefix: &[Sign], _k: usize) -> Asked {
        FREE
    }

    fn settled_b(&self, _choices: usize) -> &[usize] {
        &[]
    }

    fn closed(&self, prefix: &[Sign]) -> bool {
        self.given.is_closed(prefix)
    }
}

/// Searches for a slope against a reaction, with at most this many visits. The complexes are the reactants.
pub(crate) fn search_slopes(
    alloc: Global,
    net: &Network,
    complexes: &[usize],
    reaction: usize,
    given: &Slopes,
    budget: u32,
) -> Result<SearchEnd, SearchStop>
    requires complexes { complexes.now ≡ reactants net.now }
    requires inside { reaction < length net.now.reactions }
    requires given { given.now ≡ record { net = net.now; reaction = reaction } }
    requires small { IsSmallEnough given.now.net }
    requires low { 1 ≤ budget }
    requires high { budget ≤ MAX_BUDGET }
    ensures { let w = slopes_alone given.now.net given.now.reaction in
        MatchResult result (IsSearchEnd w budget) (IsSearchStop w) }
{
    let matrix = given.matrix(alloc)?;
    let weak = weak_words(alloc, given, &matrix)?;
    let further = further_of(alloc, complexes, net.reactant(reaction))?;
    let chains = chains_of(alloc, net)?;
    let nothing = Matrix::new(alloc, 0, 1, &[])?;
    let solver = Solver::new(alloc, &nothing)?;
    let problem = SlopeProblem {
        given,
        net,
        reaction,
        further,
        chains,
        matrix,
        nothing,
        weak,
    };
    search(alloc, &problem, solver, budget, true)
}
