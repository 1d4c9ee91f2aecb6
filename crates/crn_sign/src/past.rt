ghost use Rattle.std.specs.Prelude.{◌≡◌, ◌<◌, ◌*◌, ◌*ℤ◌, ℕ, ℤ, List, length, false, unsigned_abs, IsTrue, IfOk, IfSome, OnOk, MatchOption};
ghost use Rattle.std.specs.Int.{bit_at};
ghost use Rattle.std.specs.List.{AllZip};
ghost use Rattle.crn_vec.specs.Vectors.{HasSign, entry, scale};
ghost use Rattle.crn_vec.specs.Elementary.{width};
ghost use Rattle.crn_vec.specs.declared.limits.TheConstants.{WIDE_ENTRY};
ghost use Rattle.crn_farkas.specs.Decision.{IsSmallCut, factor};
ghost use Rattle.crn_farkas.specs.Solver.{AreSignsOf};
ghost use Rattle.crn_sign.specs.declared.marks.Mark.TheVariants.{Zero};
ghost use Rattle.crn_sign.specs.Inner.Bits.{IsMarked, mark_at, mark_in, word_count};
ghost use Rattle.crn_sign.specs.Inner.Marks.{kinds_of, sign_mark};
ghost use Rattle.crn_sign.specs.Inner.Past.{AllWeigh, AreMarksOf, Counts, SomeCounts, Weighs, mark_of_multiple};
ghost use Rattle.crn_sign.specs.Inner.PastCuts.{AreAllPast, ArePastCuts, IsKnown, IsPastOf};

use crate::bits::{Bits, NONE, put_mark, word_of};
use crate::marks::{Mark, opposite as negatives_of, word_count};
use crn_vec::{Ints, Kind, Matrix, NoMemory, Sign};
use std::alloc::Global;
use std::rc::Rc;

/// Multipliers u that ruled a system out, their negatives, and the marks of the list (-uA, u). The
/// leaves that they rule out share these lists.
#[derive(Drop)]
pub(crate) struct Past {
    pub multipliers: Rc<Ints>,
    pub negatives: Rc<Ints>,
    pub marks: Vec<Bits>,
}

/// Whether past multipliers rule a system out, and a reference to them if they are to be kept.
#[derive(Drop)]
pub(crate) enum Known {
    Open,
    RuledOut,
    RuledOutBy(Rc<Ints>),
}

/// The number of multipliers, the word of their marks that refused them and their negatives last, and
/// the marks there. It decides only what is tried, and in which order.
#[derive(Drop)]
pub(crate) struct Trial {
    pub number: usize,
    pub word: usize,
    pub here: Bits,
}

/// What ruled systems of prefixes of one length out.
#[derive(Drop)]
pub(crate) struct PastCuts {
    pub items: Vec<Past>,
    pub trials: Vec<Trial>,
}

// The marks of numbers, or of their negatives.
fn marks_of_multiple(marks: Bits, stays: bool) -> Bits
    ensures { (i : ℕ) → mark_in result i ≡ mark_of_multiple stays (mark_in marks i) }
{
    if stays { marks } else { negatives_of(marks) }
}

// The places of 64 at which numbers of these marks may not be weighed if this is required.
fn refused(asked: Bits, marks: Bits) -> u64
    ensures { (i : ℕ) → bit_at result i ≡ 0 → Weighs (mark_in asked i) (mark_in marks i) }
{
    ((marks.plus | asked.plus) ^ asked.plus) | ((marks.minus | asked.minus) ^ asked.minus)
}

// The places of 64 that have to be positive or negative, and at which numbers of these marks are.
fn counted(asked: Bits, weak: u64, marks: Bits) -> u64
    ensures { (i : ℕ) → bit_at result i ≡ 1
        → Counts (mark_in asked i) (bit_at weak i) (mark_in marks i) }
{
    let signed = (marks.plus ^ marks.minus) & (asked.plus ^ asked.minus);
    (signed | weak) ^ weak
}

// Whether numbers of these marks, or their negatives, may be weighed where this is required.
fn all_weigh(asked: &[Bits], marks: &[Bits], stays: bool) -> bool
    ensures { IsTrue result → AllWeigh asked.now stays marks.now }
{
    if asked.len() != marks.len() {
        return false;
    }
    for w in 0..asked.len() {
        if refused(asked[w], marks_of_multiple(marks[w], stays)) != 0 {
            return false;
        }
    }
    true
}

// Whether some place has to be positive or negative.
fn some_counts(asked: &[Bits], weak: &[u64], marks: &[Bits]) -> bool
    ensures { IsTrue result → SomeCounts weak.now asked.now marks.now }
{
    for w in 0..asked.len() {
        if w < marks.len() {
            let places = counted(asked[w], word_of(weak, w), marks[w]);
            if places != 0 {
                return true;
            }
        }
    }
    false
}

// Puts the mark of numbers of a sign at a coordinate that has none.
fn put_sign(marks: &mut Vec<Bits>, c: usize, sign: Sign)
    requires inside { c < length marks.old.items * 64 }
    requires none { mark_at marks.old.items c ≡ Zero }
    ensures { IsMarked marks.old.items c (sign_mark sign) marks.new.items }
{
    match sign {
        Sign::Zero => {}
        Sign::Plus => put_mark(marks, c, Mark::Plus),
        Sign::Minus => put_mark(marks, c, Mark::Minus),
    }
}

// The marks of the vectors of these signs.
fn marks_of(alloc: Global, matrix: &Matrix, signs: &[Sign]) -> Result<Vec<Bits>, NoMemory>
    requires { length signs.now ≡ width matrix.now }
    ensures { (w : List ℤ) → AllZip HasSign signs.now w
        → IfOk result (λ made. AreMarksOf matrix.now w made.items) }
{
    let mut marks = vec![in alloc; NONE; word_count(matrix)]?;
    for c in 0..signs.len() {
        put_sign(&mut marks, c, signs[c]);
    }
    Ok(marks)
}

// The number or its negative.
fn number_of_multiple(x: &i128, stays: bool) -> i128
    requires { unsigned_abs x.now < WIDE_ENTRY }
    ensures { result ≡ factor stays *ℤ x.now }
{
    if stays { *x } else { -*x }
}

// The negatives of the numbers.
fn negatives(alloc: Global, list: &[i128]) -> Result<Ints, NoMemory>
    requires { (k : ℕ) → unsigned_abs (entry list.now k) < WIDE_ENTRY }
    ensures { IfOk result (λ made. made.list ≡ scale (factor false) list.now) }
{
    let mut made = Ints::with_room(alloc, list.len())?;
    for x in list {
        made.push(number_of_multiple(x, false))?;
    }
    Ok(made)
}

// A list that leaves may share.
fn shared(alloc: Global, list: Ints) -> Result<Rc<Ints>, NoMemory>
    ensures { IfOk result (λ made. made.value ≡ list) }
{
    match Rc::new(alloc, list) {
        Ok(made) => Ok(made),
        Err(e) => Err(NoMemory::from(e)),
    }
}

/// Another reference to the same list.
pub(crate) fn share(list: &Rc<Ints>) -> Result<Rc<Ints>, NoMemory>
    ensures { IfOk result (λ made. made.value ≡ list.now.value) }
{
    match list.clone() {
        Ok(made) => Ok(made),
        Err(e) => Err(NoMemory::from(e)),
    }
}

impl Past {
    /// Keeps multipliers that rule a system of the matrix out, by the signs of the list (-uA, u).
    pub fn new(
        alloc: Global,
        matrix: &Matrix,
        _kinds: &[Kind],
        signs: &[Sign],
        u: Ints,
    ) -> Result<Past, NoMemory>
        requires signs { AreSignsOf matrix.now u.list signs.now }
        requires cut { IsSmallCut matrix.now _kinds.now u.list }
        ensures past { IfOk result (λ made. IsPastOf matrix.now made) }
        ensures multipliers { IfOk result (λ made. made.multipliers.value ≡ u) }
    {
        Ok(Past {
            marks: marks_of(alloc, matrix, signs)?,
            negatives: shared(alloc, negatives(alloc, u.as_slice())?)?,
            multipliers: shared(alloc, u)?,
        })
    }

    // The multipliers, or their negatives.
    fn multiple(&self, _matrix: &Matrix, stays: bool) -> &Rc<Ints>
        requires { IsPastOf _matrix.now self.now }
        ensures { result.now.value.list ≡ scale (factor stays) self.now.multipliers.value.list }
    {
        if stays {
            return &self.multipliers;
        }
        &self.negatives
    }

    // Whether the list, or else its negative, rules the system with these kinds out, and which does.
    fn ruling(&self, weak: &[u64], asked: &[Bits]) -> Option<bool>
        ensures weigh { MatchOption result (Unit {0})
            (λ stays. AllWeigh asked.now stays self.now.marks.items) }
        ensures some { MatchOption result (Unit {0})
            (λ stays. SomeCounts weak.now asked.now self.now.marks.items) }
    {
        if !some_counts(asked, weak, &self.marks) {
            return None;
        }
        if all_weigh(asked, &self.marks, true) {
            return Some(true);
        }
        if all_weigh(asked, &self.marks, false) {
            return Some(false);
        }
        None
    }

    // The multipliers, or their negatives, if they rule the system with these kinds out.
    fn again(&self, matrix: &Matrix, weak: &[u64], asked: &[Bits]) -> Option<&Rc<Ints>>
        requires past { IsPastOf matrix.now self.now }
        requires asked { length asked.now ≡ word_count matrix.now }
        ensures { IfSome result (λ u. IsSmallCut matrix.now
            (kinds_of matrix.now weak.now asked.now) u.now.value.list) }
    {
        if let Some(stays) = self.ruling(weak, asked) {
            return Some(self.multiple(matrix, stays));
        }
        None
    }
}

/// Lists for prefixes with no choice, with one, and so on, to all of them.
pub(crate) fn empty_cuts(
    alloc: Global,
    _matrix: &Matrix,
    choices: usize,
) -> Result<Vec<PastCuts>, NoMemory>
    ensures { IfOk result (λ made. ArePastCuts _matrix.now made.items) }
{
    let mut made = Vec::new(alloc);
    for _ in 0..choices {
        made.push(PastCuts {
            items: Vec::new(alloc),
            trials: Vec::new(alloc),
        })?;
    }
    made.push(PastCuts {
        items: Vec::new(alloc),
        trials: Vec::new(alloc),
    })?;
    Ok(made)
}

/// Keeps what ruled a system of a prefix of this length out.
pub(crate) fn keep_cut(
    past: &mut [PastCuts],
    _matrix: &Matrix,
    cut: Past,
    depth: usize,
) -> Result<(), NoMemory>
    requires past { ArePastCuts _matrix.now past.old }
    requires cut { IsPastOf _matrix.now cut }
    ensures { OnOk result (ArePastCuts _matrix.now past.new) }
{
    if depth < past.len() {
        let number = past[depth].items.len();
        past[depth].trials.push(Trial {
            number,
            word: 0,
            here: NONE,
        })?;
        past[depth].items.push(cut)?;
    }
    Ok(())
}

// Whether neither numbers of these marks nor their negatives may be weighed where this is required.
fn are_refused(asked: Bits, here: Bits) -> bool {
    refused(asked, here) != 0 && refused(asked, negatives_of(here)) != 0
}

// Whether the word that refused multipliers and their negatives last does so again.
fn are_refused_again(asked: &[Bits], trial: &Trial) -> bool {
    trial.word < asked.len() && are_refused(asked[trial.word], trial.here)
}

// Keeps a word that refuses multipliers and their negatives, if one does.
fn keep_refusing(asked: &[Bits], marks: &[Bits], trial: &mut Trial) {
    for w in 0..asked.len() {
        if w < marks.len() && are_refused(asked[w], marks[w]) {
            trial.word = w;
            trial.here = marks[w];
            return;
        }
    }
}

// The multipliers of a trial, or their negatives, if they rule a system out.
fn tried<'a>(
    matrix: &Matrix,
    weak: &[u64],
    asked: &[Bits],
    past: &'a [Past],
    trial: &mut Trial,
) -> Option<&'a Rc<Ints>>
    requires past { AreAllPast matrix.now past.now }
    requires asked { length asked.now ≡ word_count matrix.now }
    ensures { IfSome result (λ u. IsSmallCut matrix.now
        (kinds_of matrix.now weak.now asked.now) u.now.value.list) }
{
    let number = trial.number;
    if number < past.len() {
        let cut = past[number].again(matrix, weak, asked);
        if cut.is_none() {
            keep_refusing(asked, &past[number].marks, trial);
        }
        return cut;
    }
    None
}

// The first of these multipliers, or of their negatives, that rule a system out. Trials that are refused
// again are passed over.
#[inline(never)]
fn first_again<'a>(
    matrix: &Matrix,
    weak: &[u64],
    asked: &[Bits],
    past: &'a [Past],
    trials: &mut [Trial],
) -> Option<&'a Rc<Ints>>
    requires past { AreAllPast matrix.now past.now }
    requires asked { length asked.now ≡ word_count matrix.now }
    ensures { IfSome result (λ u. IsSmallCut matrix.now
        (kinds_of matrix.now weak.now asked.now) u.now.value.list) }
{
    for i in 0..trials.len() {
        if !are_refused_again(asked, &trials[i]) {
            if let Some(u) = tried(matrix, weak, asked, past, &mut trials[i]) {
                trials.swap(i / 2, i);
                return Some(u);
            }
        }
    }
    None
}

/// Whether some of these multipliers, or of their negatives, rule the system out of which this is asked. A
/// reference to the first that do is made if they are to be kept.
#[inline(always)]
pub(crate) fn known_again(
    matrix: &Matrix,
    weak: &[u64],
    asked: &[Bits],
    past: &mut PastCuts,
    keeps: bool,
) -> Result<Known, NoMemory>
    requires past { AreAllPast matrix.now past.old.items.items }
    requires asked { length asked.now ≡ word_count matrix.now }
    ensures past { past.new.items ≡ past.old.items }
    ensures known { IfOk result (λ known. IsKnown matrix.now
        (kinds_of matrix.now weak.now asked.now) keeps known) }
{
    if let Some(u) = first_again(matrix, weak, asked, &past.items, &mut past.trials) {
        if keeps {
            let kept = share(u)?;
            return Ok(Known::RuledOutBy(kept));
        }
        return Ok(Known::RuledOut);
    }
    Ok(Known::Open)
}
