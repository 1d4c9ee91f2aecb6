ghost use Rattle.std.specs.Prelude.{◌≡◌, ◌≤◌, ◌<◌, ◌-◌, ◌++◌, ◌∷◌, [], ◌↔◌, ℕ, ℤ, List, length, true, false, IsTrue, IfOk, IfErr, OnOk, MatchResult};
ghost use Rattle.crn_vec.specs.Systems.{IsSolution};
ghost use Rattle.crn_vec.specs.Kept.{KeptInts};
ghost use Rattle.crn_farkas.specs.Decision.{IsSmallCut};
ghost use Rattle.crn_vec.specs.declared.limits.TheConstants.{MAX_BUDGET};
ghost use Rattle.crn_vec.specs.Elementary.{NamesWide};
ghost use Rattle.crn_vec.specs.Problems.{IsFull, IsFeasible, IsLawful, IsPrefix};
ghost use Rattle.crn_vec.specs.declared.signs.Sign.{Sign};
ghost use Rattle.crn_sign.specs.Search.{IsOutcome, IsSearchStop};
ghost use Rattle.crn_sign.specs.Inner.Walk.{EndsAt, EndsBelow, HasTree, IsEndOf, IsFoundAt, IsLevelUnless, IsSolvedUnless, IsWideA, IsWideB, MayListLeaf, split_node};
ghost use Rattle.crn_sign.specs.Inner.Parts.{IsPart, IsRuling};
ghost use Rattle.crn_sign.specs.Inner.Places.{IsAsked, IsHere, IsPlace};
ghost use Rattle.crn_sign.specs.Inner.Ready.{AreAround, AreAsked, AreFor, AreMarked, AreRooms, AreRoomsBelow, HasRooms, HasSums, IsLevel, IsReady, SamePlace};

use crate::bits::{Bits, NONE};
use crate::end::SearchEnd;
use crate::fault::SearchStop;
use crate::marks::word_count;
use crate::part::Part;
use crate::past::Known;
use crate::place::{Place, begin_a, begin_b, enter_b};
use crate::problem::SignProblem;
use crate::signs::Signs;
use crn_cert::{Tree, TreeNode};
use crn_farkas::{Solver, Stop};
use crn_vec::{Ints, Matrix, NoMemory, Sign, is_all_zero};
use std::alloc::Global;
use std::mem::drop;
use std::rc::Rc;

/// What a search works with: memory, its two parts, the prefix that is visited, and the visits that are left.
#[derive(Drop)]
pub(crate) struct Progress {
    pub alloc: Global,
    pub a: Part,
    pub b: Part,
    pub prefix: Vec<Sign>,
    pub left: u32,
}

/// What both parts know at a prefix, and its sums, by which part A is settled.
#[derive(Drop)]
pub(crate) struct Level {
    pub a: Place,
    pub b: Place,
    pub sums: Vec<Bits>,
}

/// The nodes of the visits in their order, if a tree is to be kept.
#[derive(Drop)]
pub(crate) struct Listing {
    pub nodes: Vec<TreeNode>,
    pub keeps: bool,
}

/// A full feasible prefix, with solutions of both its parts.
#[derive(Drop)]
pub(crate) struct FullPrefix {
    pub pattern: Signs,
    pub a: Ints,
    pub b: Ints,
}

/// How the visits of a prefix, and of all below it, ended. It is small, since each visit passes one on.
#[derive(Drop)]
pub(crate) enum Ending {
    Found(Box<FullPrefix>),
    Refuted,
    Spent,
}

// The stop of part A's solver as the stop of the search.
fn wide_a(stop: Stop) -> SearchStop
    ensures { IsWideA stop result }
{
    match stop {
        Stop::Wide { index, basis } => SearchStop::WideA { index, basis },
        Stop::NoMemory => SearchStop::NoMemory,
    }
}

// The stop of part B's solver, at the first system that is left to it or at a later one, as the stop of
// the search.
fn wide_b(stop: Stop, is_first: bool) -> SearchStop
    ensures { IsWideB is_first stop result }
{
    match stop {
        Stop::Wide { index, basis } => SearchStop::WideB {
            index,
            basis,
            is_first,
        },
        Stop::NoMemory => SearchStop::NoMemory,
    }
}

// Whether past multipliers rule part A of the prefix out. Its leaf is then listed, if nodes are kept.
#[inline(always)]
fn is_known_a<P: SignProblem>(
    problem: &P,
    search: &mut Progress,
    here: &Place,
    listing: &mut Listing,
) -> Result<bool, NoMemory>
    requires ready { IsReady (P.signed problem.now) search.old }
    requires here { IsAsked (P.signed problem.now).matrix_a (P.weak problem.now)
        ((P.signed problem.now).kinds_a search.old.prefix.items) here.now }
    ensures place { OnOk result (SamePlace search.old search.new) }
    ensures ready { OnOk result (IsReady (P.signed problem.now) search.new) }
    ensures leaf { IfOk result (λ known. MayListLeaf (P.signed problem.now)
        search.old.prefix.items listing.old listing.new known) }
{
    let depth = search.prefix.len();
    let keeps = listing.keeps;
    let known = search
        .a
        .known_cut(problem.matrix_a(), problem.weak_a(), here, depth, keeps)?;
    match known {
        Known::Open => Ok(false),
        Known::RuledOut => Ok(true),
        Known::RuledOutBy(u) => {
            list_node(listing, TreeNode::CutA(u))?;
            Ok(true)
        }
    }
}

// Whether past multipliers rule part B of the prefix out. Its leaf is then listed, if nodes are kept.
#[inline(always)]
fn is_known_b<P: SignProblem>(
    problem: &P,
    search: &mut Progress,
    here: &Place,
    listing: &mut Listing,
) -> Result<bool, NoMemory>
    requires ready { IsReady (P.signed problem.now) search.old }
    requires here { IsAsked (P.signed problem.now).matrix_b []
        ((P.signed problem.now).kinds_b search.old.prefix.items) here.now }
    ensures place { OnOk result (SamePlace search.old search.new) }
    ensures ready { OnOk result (IsReady (P.signed problem.now) search.new) }
    ensures leaf { IfOk result (λ known. MayListLeaf (P.signed problem.now)
        search.old.prefix.items listing.old listing.new known) }
{
    let depth = search.prefix.len();
    let keeps = listing.keeps;
    let known = search
        .b
        .known_cut(problem.matrix_b(), &[], here, depth, keeps)?;
    match known {
        Known::Open => Ok(false),
        Known::RuledOut => Ok(true),
        Known::RuledOutBy(u) => {
            list_node(listing, TreeNode::CutB(u))?;
            Ok(true)
        }
    }
}

// Notes whether what served one level above suits what is required of both parts.
fn look<P: SignProblem>(problem: &P, _prefix: &[Sign], above: &Level, here: &mut Level)
    requires asked { AreAsked (P.signed problem.now) (P.weak problem.now) _prefix.now here.old }
    requires above { AreMarked (P.signed problem.now) above.now }
    ensures asked { AreAsked (P.signed problem.now) (P.weak problem.now) _prefix.now here.new }
    ensures here { AreFor (P.signed problem.now) (P.weak problem.now) above.now here.new }
    ensures sums { here.new.sums.items ≡ here.old.sums.items }
{
    here.a.look(problem.matrix_a(), problem.weak_a(), &above.a);
    here.b.look(problem.matrix_b(), &[], &above.b);
}

// Takes over what served one level above.
fn take<P: SignProblem>(problem: &P, above: &Level, here: &mut Level)
    requires here { AreFor (P.signed problem.now) (P.weak problem.now) above.now here.old }
    requires above { AreMarked (P.signed problem.now) above.now }
    ensures a { IsPlace (P.signed problem.now).matrix_a (P.weak problem.now) here.new.a }
    ensures b { IsPlace (P.signed problem.now).matrix_b [] here.new.b }
    ensures asked_a { here.new.a.asked.items ≡ here.old.a.asked.items }
    ensures asked_b { here.new.b.asked.items ≡ here.old.b.asked.items }
    ensures sums { here.new.sums.items ≡ here.old.sums.items }
{
    here.a.take(problem.matrix_a(), problem.weak_a(), &above.a);
    here.b.take(problem.matrix_b(), &[], &above.b);
}

// Whether past multipliers of a part rule the prefix out. Its leaf is then listed, if nodes are kept; else
// it is found what both parts know at the prefix. No solver is asked.
#[inline(always)]
fn arrive<P: SignProblem>(
    problem: &P,
    search: &mut Progress,
    above: &Level,
    here: &mut Level,
    listing: &mut Listing,
) -> Result<bool, NoMemory>
    requires ready { IsReady (P.signed problem.now) search.old }
    requires above { AreMarked (P.signed problem.now) above.now }
    requires here { AreAsked (P.signed problem.now) (P.weak problem.now)
        search.old.prefix.items here.old }
    ensures place { OnOk result (SamePlace search.old search.new) }
    ensures ready { OnOk result (IsReady (P.signed problem.now) search.new) }
    ensures asked { OnOk result
        (AreAsked (P.signed problem.now) (P.weak problem.now) search.old.prefix.items here.new) }
    ensures sums { OnOk result (here.new.sums.items ≡ here.old.sums.items) }
    ensures leaf { IfOk result (λ known. MayListLeaf (P.signed problem.now)
        search.old.prefix.items listing.old listing.new known) }
    ensures level { IfOk result (λ known. IsLevelUnless known (P.signed problem.now)
        (P.weak problem.now) search.old.prefix.items here.new) }
{
    look(problem, &search.prefix, above, here);
    let by_b = is_known_b(problem, search, &here.b, listing)?;
    if by_b {
        return Ok(true);
    }
    let by_a = is_known_a(problem, search, &here.a, listing)?;
    if by_a {
        return Ok(true);
    }
    take(problem, above, here);
    Ok(false)
}

// Multipliers that rule part A of the prefix out, or none if it has a solution.
#[inline(always)]
fn rule_out_a<P: SignProblem>(
    problem: &P,
    search: &mut Progress,
    here: &mut Place,
) -> Result<Option<Rc<Ints>>, SearchStop>
    requires ready { IsReady (P.signed problem.now) search.old }
    requires here { IsHere (P.signed problem.now).matrix_a (P.weak problem.now)
        ((P.signed problem.now).kinds_a search.old.prefix.items) here.old }
    ensures place { OnOk result (SamePlace search.old search.new) }
    ensures ready { OnOk result (IsReady (P.signed problem.now) search.new) }
    ensures here { OnOk result (IsHere (P.signed problem.now).matrix_a (P.weak problem.now)
        ((P.signed problem.now).kinds_a search.old.prefix.items) here.new) }
    ensures answer { MatchResult result
        (λ u. IsRuling (P.signed problem.now).matrix_a
        ((P.signed problem.now).kinds_a search.old.prefix.items) u)
        (λ s. IsSearchStop (P.signed problem.now) s) }
{
    let depth = search.prefix.len();
    match search
        .a
        .ruled_out(problem.matrix_a(), problem.weak_a(), here, depth)
    {
        Ok(u) => Ok(u),
        Err(stop) => Err(wide_a(stop)),
    }
}

// Multipliers that rule part B of the prefix out, or none if it has a solution.
#[inline(always)]
fn rule_out_b<P: SignProblem>(
    problem: &P,
    search: &mut Progress,
    here: &mut Place,
) -> Result<Option<Rc<Ints>>, SearchStop>
    requires ready { IsReady (P.signed problem.now) search.old }
    requires here { IsHere (P.signed problem.now).matrix_b []
        ((P.signed problem.now).kinds_b search.old.prefix.items) here.old }
    ensures place { OnOk result (SamePlace search.old search.new) }
    ensures ready { OnOk result (IsReady (P.signed problem.now) search.new) }
    ensures here { OnOk result (IsHere (P.signed problem.now).matrix_b []
        ((P.signed problem.now).kinds_b search.old.prefix.items) here.new) }
    ensures answer { MatchResult result
        (λ u. IsRuling (P.signed problem.now).matrix_b
        ((P.signed problem.now).kinds_b search.old.prefix.items) u)
        (λ s. IsSearchStop (P.signed problem.now) s) }
{
    let depth = search.prefix.len();
    match search.b.ruled_out(problem.matrix_b(), &[], here, depth) {
        Ok(u) => Ok(u),
        Err(stop) => Err(wide_b(stop, !search.b.has_decided)),
    }
}

// Whether multipliers of a part rule the prefix out. Its leaf is then listed, if nodes are kept; else both
// parts have solutions. What is known of either part is tried before the solver of one is asked.
#[inline(always)]
fn rule_out<P: SignProblem>(
    problem: &P,
    search: &mut Progress,
    above: &Level,
    here: &mut Level,
    listing: &mut Listing,
) -> Result<bool, SearchStop>
    requires ready { IsReady (P.signed problem.now) search.old }
    requires above { AreMarked (P.signed problem.now) above.now }
    requires here { AreAsked (P.signed problem.now) (P.weak problem.now)
        search.old.prefix.items here.old }
    ensures place { OnOk result (SamePlace search.old search.new) }
    ensures ready { OnOk result (IsReady (P.signed problem.now) search.new) }
    ensures asked { OnOk result
        (AreAsked (P.signed problem.now) (P.weak problem.now) search.old.prefix.items here.new) }
    ensures sums { OnOk result (here.new.sums.items ≡ here.old.sums.items) }
    ensures leaf { IfOk result (λ ruled. MayListLeaf (P.signed problem.now)
        search.old.prefix.items listing.old listing.new ruled) }
    ensures level { IfOk result (λ ruled. IsLevelUnless ruled (P.signed problem.now)
        (P.weak problem.now) search.old.prefix.items here.new) }
    ensures solved { IfOk result (λ ruled. IsSolvedUnless ruled (P.signed problem.now)
        search.old.prefix.items) }
    ensures stop { IfErr result (λ s. IsSearchStop (P.signed problem.now) s) }
{
    let known = arrive(problem, search, above, here, listing)?;
    if known {
        return Ok(true);
    }
    if let Some(u) = rule_out_b(problem, search, &mut here.b)? {
        list_node(listing, TreeNode::CutB(u))?;
        return Ok(true);
    }
    if let Some(u) = rule_out_a(problem, search, &mut here.a)? {
        list_node(listing, TreeNode::CutA(u))?;
        return Ok(true);
    }
    Ok(false)
}

// The full prefix, which is feasible, with solutions of its parts.
#[inline(always)]
fn found_end<P: SignProblem>(
    problem: &P,
    search: &mut Progress,
    here: &Level,
) -> Result<Ending, SearchStop>
    requires ready { IsReady (P.signed problem.now) search.old }
    requires here { IsLevel (P.signed problem.now) (P.weak problem.now)
        search.old.prefix.items here.now }
    requires full { IsFull (P.signed problem.now) search.old.prefix.items }
    requires feasible { IsFeasible (P.signed problem.now) search.old.prefix.items }
    ensures place { OnOk result (SamePlace search.old search.new) }
    ensures ready { OnOk result (IsReady (P.signed problem.now) search.new) }
    ensures answer { MatchResult result
        (λ e. IsFoundAt (P.signed problem.now) search.old.prefix.items e)
        (λ s. IsSearchStop (P.signed problem.now) s) }
{
    let pattern = Signs::from_slice(search.alloc, &search.prefix)?;
    let a = match search
        .a
        .solution(problem.matrix_a(), problem.weak_a(), &here.a.asked)
    {
        Ok(a) => a,
        Err(stop) => return Err(wide_a(stop)),
    };
    let b = match search.b.solution(problem.matrix_b(), &[], &here.b.asked) {
        Ok(b) => b,
        Err(stop) => return Err(wide_b(stop, false)),
    };
    match Box::new(search.alloc, FullPrefix { pattern, a, b }) {
        Ok(found) => Ok(Ending::Found(found)),
        Err(_) => Err(SearchStop::NoMemory),
    }
}

// Requires of both parts what the prefix requires; all but its last choice was required already.
fn enter<P: SignProblem>(problem: &P, prefix: &[Sign], above: &Level, here: &mut Level)
    requires lawful { IsLawful (P.signed problem.now) }
    requires prefix { IsPrefix (P.signed problem.now) prefix.now }
    requires here { (p : List Sign) × (s : Sign) × (prefix.now ≡ p ++ s ∷ [])
        × AreAround (P.signed problem.now) p here.old
        × HasSums (P.signed problem.now) (P.are_sums problem.now) p above.now }
    ensures asked { AreAsked (P.signed problem.now) (P.weak problem.now) prefix.now here.new }
    ensures sums { HasSums (P.signed problem.now) (P.are_sums problem.now) prefix.now here.new }
{
    problem.settle_a(prefix, &above.sums, &mut here.sums, &mut here.a.asked);
    enter_b(problem, prefix, &mut here.b);
}

// Requires of part B, to begin with, what is required one level above.
fn surround<P: SignProblem>(_problem: &P, _prefix: &[Sign], above: &Level, here: &mut Level)
    requires above { IsLevel (P.signed _problem.now) (P.weak _problem.now) _prefix.now above.now }
    requires room { HasRooms (P.signed _problem.now) here.old }
    ensures { AreAround (P.signed _problem.now) _prefix.now here.new }
{
    here.b.ask_as(&above.b);
}

// That a level is that of the prefix, for what is called after this.
fn at_level<P: SignProblem>(_problem: &P, _search: &Progress, _here: &Level)
    requires { IsLevel (P.signed _problem.now) (P.weak _problem.now)
        _search.now.prefix.items _here.now }
    ensures { IsLevel (P.signed _problem.now) (P.weak _problem.now)
        _search.now.prefix.items _here.now }
{}

// A level of which something is required leaves room for another prefix.
fn leaves_room<P: SignProblem>(_problem: &P, _search: &Progress, _here: &Level)
    requires { AreAround (P.signed _problem.now) _search.now.prefix.items _here.now }
    ensures { HasRooms (P.signed _problem.now) _here.now }
{}

// Lists a node, if nodes are to be kept.
#[inline(always)]
fn list_node(listing: &mut Listing, node: TreeNode) -> Result<(), NoMemory>
    ensures keeps { OnOk result (listing.new.keeps ≡ listing.old.keeps) }
    ensures nodes { OnOk result (listing.old.keeps ≡ true
        → listing.new.nodes.items ≡ listing.old.nodes.items ++ node ∷ []) }
{
    if !listing.keeps {
        return Ok(());
    }
    match listing.nodes.push(node) {
        Ok(()) => Ok(()),
        Err(_) => Err(NoMemory),
    }
}

// The node of a prefix that is split.
fn split_node(zeros: bool) -> TreeNode
    ensures { result ≡ split_node zeros }
{
    if zeros {
        TreeNode::SplitTwo
    } else {
        TreeNode::SplitThree
    }
}

// Visits the prefix with one more option, and all that is visited below it.
#[cycle(walk)]
#[inline(always)]
fn child<P: SignProblem>(
    problem: &P,
    search: &mut Progress,
    above: &Level,
    next: &mut Level,
    rest: &mut [Level],
    listing: &mut Listing,
    option: Sign,
) -> Result<Ending, SearchStop>
    requires ready { IsReady (P.signed problem.now) search.old }
    requires room { length search.old.prefix.items < (P.signed problem.now).choices }
    requires above { AreMarked (P.signed problem.now) above.now }
    requires sums { HasSums (P.signed problem.now) (P.are_sums problem.now)
        search.old.prefix.items above.now }
    requires next { AreAround (P.signed problem.now) search.old.prefix.items next.old }
    requires rest { AreRoomsBelow (P.signed problem.now) search.old.prefix.items rest.old }
    ensures prefix { OnOk result (search.new.prefix.items ≡ search.old.prefix.items) }
    ensures ready { OnOk result (IsReady (P.signed problem.now) search.new) }
    ensures next { OnOk result
        (AreAround (P.signed problem.now) search.old.prefix.items next.new) }
    ensures rest { OnOk result
        (AreRoomsBelow (P.signed problem.now) search.old.prefix.items rest.new) }
    ensures answer { MatchResult result
        (λ e. EndsAt (P.signed problem.now) (search.old.prefix.items ++ option ∷ [])
        search.old.left search.new.left listing.old listing.new e)
        (λ s. IsSearchStop (P.signed problem.now) s) }
{
    search.prefix.push_reserved(option);
    enter(problem, &search.prefix, above, next);
    let end = walk(problem, search, above, next, rest, listing)?;
    search.prefix.pop();
    Ok(end)
}

// Visits the children of a feasible prefix that is not full, and all that is visited below them.
#[cycle(walk)]
fn split<P: SignProblem>(
    problem: &P,
    search: &mut Progress,
    here: &Level,
    next: &mut Level,
    rest: &mut [Level],
    listing: &mut Listing,
) -> Result<Ending, SearchStop>
    requires ready { IsReady (P.signed problem.now) search.old }
    requires room { length search.old.prefix.items < (P.signed problem.now).choices }
    requires here { AreMarked (P.signed problem.now) here.now }
    requires sums { HasSums (P.signed problem.now) (P.are_sums problem.now)
        search.old.prefix.items here.now }
    requires next { AreAround (P.signed problem.now) search.old.prefix.items next.old }
    requires rest { AreRoomsBelow (P.signed problem.now) search.old.prefix.items rest.old }
    ensures prefix { OnOk result (search.new.prefix.items ≡ search.old.prefix.items) }
    ensures ready { OnOk result (IsReady (P.signed problem.now) search.new) }
    ensures next { OnOk result
        (AreAround (P.signed problem.now) search.old.prefix.items next.new) }
    ensures rest { OnOk result
        (AreRoomsBelow (P.signed problem.now) search.old.prefix.items rest.new) }
    ensures answer { MatchResult result
        (λ e. EndsBelow (P.signed problem.now) search.old.prefix.items
        search.old.left search.new.left listing.old listing.new e)
        (λ s. IsSearchStop (P.signed problem.now) s) }
{
    let zeros = is_all_zero(&search.prefix);
    list_node(listing, split_node(zeros))?;
    match child(problem, search, here, next, rest, listing, Sign::Zero)? {
        Ending::Refuted => {}
        end => return Ok(end),
    }
    match child(problem, search, here, next, rest, listing, Sign::Plus)? {
        Ending::Refuted => {}
        end => return Ok(end),
    }
    if zeros {
        return Ok(Ending::Refuted);
    }
    let end = child(problem, search, here, next, rest, listing, Sign::Minus)?;
    Ok(end)
}

// Visits a prefix, and all that is visited below it.
#[cycle(walk)]
#[inline(always)]
pub(crate) fn walk<P: SignProblem>(
    problem: &P,
    search: &mut Progress,
    above: &Level,
    here: &mut Level,
    levels: &mut [Level],
    listing: &mut Listing,
) -> Result<Ending, SearchStop>
    requires ready { IsReady (P.signed problem.now) search.old }
    requires above { AreMarked (P.signed problem.now) above.now }
    requires here { AreAsked (P.signed problem.now) (P.weak problem.now)
        search.old.prefix.items here.old }
    requires sums { HasSums (P.signed problem.now) (P.are_sums problem.now)
        search.old.prefix.items here.old }
    requires levels { AreRooms (P.signed problem.now) search.old.prefix.items levels.old }
    ensures prefix { OnOk result (search.new.prefix.items ≡ search.old.prefix.items) }
    ensures ready { OnOk result (IsReady (P.signed problem.now) search.new) }
    ensures here { OnOk result
        (AreAsked (P.signed problem.now) (P.weak problem.now) search.old.prefix.items here.new) }
    ensures sums { OnOk result (here.new.sums.items ≡ here.old.sums.items) }
    ensures levels { OnOk result
        (AreRooms (P.signed problem.now) search.old.prefix.items levels.new) }
    ensures answer { MatchResult result
        (λ e. EndsAt (P.signed problem.now) search.old.prefix.items
        search.old.left search.new.left listing.old listing.new e)
        (λ s. IsSearchStop (P.signed problem.now) s) }
{
    if search.left == 0 {
        return Ok(Ending::Spent);
    }
    search.left -= 1;
    if problem.closed(&search.prefix) {
        list_node(listing, TreeNode::Flat)?;
        return Ok(Ending::Refuted);
    }
    let ruled = rule_out(problem, search, above, here, listing)?;
    if ruled {
        return Ok(Ending::Refuted);
    }
    at_level(problem, search, here);
    if search.prefix.len() == problem.length() {
        return Ok(found_end(problem, search, here)?);
    }
    let (first, rest) = levels.split_at_mut(1);
    let next = &mut first[0];
    surround(problem, &search.prefix, here, next);
    let end = split(problem, search, here, next, rest, listing)?;
    leaves_room(problem, search, next);
    Ok(end)
}

// A part of this matrix, with a solver of its own.
fn part_of(alloc: Global, matrix: &Matrix, choices: usize) -> Result<Part, NoMemory>
    ensures { IfOk result (λ made. IsPart matrix.now made) }
{
    let solver = Solver::new(alloc, matrix)?;
    Part::new(alloc, matrix, solver, choices)
}

// What a search begins with.
pub(crate) fn start<P: SignProblem>(
    alloc: Global,
    problem: &P,
    solver_b: Solver,
    budget: u32,
) -> Result<Progress, SearchStop>
    requires { solver_b.matrix ≡ (P.signed problem.now).matrix_b }
    ensures ready { IfOk result (λ made. IsReady (P.signed problem.now) made) }
    ensures prefix { IfOk result (λ made. made.prefix.items ≡ []) }
    ensures left { IfOk result (λ made. made.left ≡ budget) }
    ensures memory { MatchResult result (λ made. Unit {0})
        (λ s. IsSearchStop (P.signed problem.now) s) }
{
    let choices = problem.length();
    let matrix_a = problem.matrix_a();
    let matrix_b = problem.matrix_b();
    let Ok(prefix) = Vec::with_capacity(alloc, choices) else {
        drop(solver_b);
        return Err(SearchStop::NoMemory);
    };
    let b = Part::new(alloc, matrix_b, solver_b, choices)?;
    let Ok(a) = part_of(alloc, matrix_a, choices) else {
        drop(b);
        return Err(SearchStop::NoMemory);
    };
    Ok(Progress {
        alloc,
        a,
        b,
        prefix,
        left: budget,
    })
}

// Room for what both parts know at a prefix.
fn room<P: SignProblem>(alloc: Global, problem: &P) -> Result<Level, NoMemory>
    ensures { IfOk result (λ made. HasRooms (P.signed problem.now) made) }
{
    Ok(Level {
        a: Place::new(alloc, problem.matrix_a())?,
        b: Place::new(alloc, problem.matrix_b())?,
        sums: vec![in alloc; NONE; word_count(problem.matrix_a())]?,
    })
}

// Room for what both parts know at prefixes with one choice, with two, and so on, to all.
fn rooms<P: SignProblem>(alloc: Global, problem: &P) -> Result<Vec<Level>, NoMemory>
    ensures { IfOk result (λ made. AreRooms (P.signed problem.now) [] made.items) }
{
    let choices = problem.length();
    let mut levels = Vec::with_capacity(alloc, choices)?;
    for _ in 0..choices {
        levels.push(room(alloc, problem)?)?;
    }
    Ok(levels)
}

// What both parts know at the prefix with no choice.
fn first_level<P: SignProblem>(alloc: Global, problem: &P) -> Result<Level, NoMemory>
    ensures level { IfOk result
        (λ made. IsLevel (P.signed problem.now) (P.weak problem.now) [] made) }
    ensures sums { IfOk result
        (λ made. HasSums (P.signed problem.now) (P.are_sums problem.now) [] made) }
{
    let _ = problem.length();
    let mut first = room(alloc, problem)?;
    begin_a(problem, &mut first.sums, &mut first.a);
    begin_b(problem, &mut first.b);
    Ok(first)
}

// How a search ended whose visits ended so, and listed these nodes if a tree is kept.
fn end_of(end: Ending, nodes: Vec<TreeNode>, keeps: bool) -> SearchEnd
    requires { IsTrue keeps → HasTree end nodes.items }
    ensures { IsEndOf keeps end nodes.items result }
{
    match end {
        Ending::Found(found) => {
            let FullPrefix { pattern, a, b } = Box::into_inner(found);
            SearchEnd::Found { pattern, a, b }
        }
        Ending::Refuted => {
            if keeps {
                SearchEnd::Refuted(Tree::new(nodes))
            } else {
                SearchEnd::Infeasible
            }
        }
        Ending::Spent => SearchEnd::Spent,
    }
}

// How the visits end that are left to a search, the first of which is that of the prefix with no choice. The search is
// borrowed, so that no way out from here drops its solvers.
fn visit_from<P: SignProblem>(
    alloc: Global,
    problem: &P,
    search: &mut Progress,
    listing: &mut Listing,
) -> Result<Ending, SearchStop>
    requires ready { IsReady (P.signed problem.now) search.old }
    requires prefix { search.old.prefix.items ≡ [] }
    ensures { MatchResult result
        (λ e. EndsAt (P.signed problem.now) [] search.old.left search.new.left
        listing.old listing.new e)
        (λ s. IsSearchStop (P.signed problem.now) s) }
{
    let above = first_level(alloc, problem)?;
    let Ok(mut first) = first_level(alloc, problem) else {
        drop(above);
        return Err(SearchStop::NoMemory);
    };
    let Ok(mut levels) = rooms(alloc, problem) else {
        drop(above);
        drop(first);
        return Err(SearchStop::NoMemory);
    };
    let end = walk(problem, search, &above, &mut first, &mut levels, listing);
    drop(above);
    drop(first);
    end
}

// How at most this many visits end, the first of which is that of the prefix with no choice.
fn visit_all<P: SignProblem>(
    alloc: Global,
    problem: &P,
    solver_b: Solver,
    budget: u32,
    listing: &mut Listing,
) -> Result<Ending, SearchStop>
    requires { solver_b.matrix ≡ (P.signed problem.now).matrix_b }
    ensures { MatchResult result
        (λ e. (after : ℕ) × EndsAt (P.signed problem.now) [] budget after
        listing.old listing.new e)
        (λ s. IsSearchStop (P.signed problem.now) s) }
{
    let mut search = start(alloc, problem, solver_b, budget)?;
    match visit_from(alloc, problem, &mut search, listing) {
        Ok(end) => {
            drop(search);
            Ok(end)
        }
        Err(stop) => {
            drop(search);
            Err(stop)
        }
    }
}

/// Searches for a full feasible prefix, with at most this many visits.
///
/// Its answer is the first full feasible prefix of the visit list, or a tree with one node for each
/// visit, in their order, or `Spent`. Where no tree is kept, it is `Infeasible` in place of the tree, and
/// takes less memory. It keeps one solver for each part, and before it uses them it
/// tries what they gave at other prefixes: multipliers, and vectors that add up to solutions. Part B's
/// solver is handed in: other questions on its matrix may have led it to a basis from which less is left to do.
pub fn search<P: SignProblem>(
    alloc: Global,
    problem: &P,
    solver_b: Solver,
    budget: u32,
    keeps: bool,
) -> Result<SearchEnd, SearchStop>
    requires solver { solver_b.matrix ≡ (P.signed problem.now).matrix_b }
    requires low { 1 ≤ budget }
    requires high { budget ≤ MAX_BUDGET }
    ensures { MatchResult result (λ e. IsOutcome (P.signed problem.now) budget keeps e)
        (λ s. IsSearchStop (P.signed problem.now) s) }
{
    let nodes = Vec::with_capacity(alloc, 0)?;
    let mut listing = Listing { nodes, keeps };
    let end = visit_all(alloc, problem, solver_b, budget, &mut listing)?;
    Ok(end_of(end, listing.nodes, keeps))
}
