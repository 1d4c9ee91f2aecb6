ghost use Rattle.std.specs.Prelude.{◌≡◌, ◌≢◌, true, ◌≤◌, ◌+◌, ℕ, ℤ, List, [], length, IfOk, OnOk};
ghost use Rattle.crn_io.specs.declared.lines.TheConstants.{MAX_NUMBERS, MAX_SHARED};
ghost use Rattle.crn_ctext.specs.Records.{Record};
ghost use Rattle.crn_ctext.specs.Blocks.{node_of};
ghost use Rattle.crn_ctext.specs.Expect.{IsReadAs};
ghost use Rattle.crn_ctree.specs.Due.{first, rest};
ghost use Rattle.crn_cert.specs.Nodes.{AreNumbersFor};
ghost use Rattle.crn_ctree.specs.Gives.{SharedGives, is_cut, said_by};
ghost use Rattle.crn_ctree.specs.Problem.{problem_of};
ghost use Rattle.crn_ctree.specs.Shared.{IsPlaceIn, said_by_shared};
ghost use Rattle.crn_document.specs.Inner.Met.{AreMet, IsCutOf, IsNodeLineAs, IsDueNodeLine, SaysPlainly};
ghost use Rattle.crn_reading.specs.Steps.{IsVersion, GoesOn, StepIs};
ghost use Rattle.crn_document.specs.Inner.Trees.{ExpectsNode, IsNode, IsSaidAs, JudgeGives, Leaves, TakesSome, after_node, asks_node_for, asks_one, count_a as count_a_of, problem_in};
ghost use Rattle.crn_ctext.specs.Questions.{first_number};
ghost use Rattle.crn_document.specs.Inner.Answer.{AreSmall};

use crate::met::MetLines;
use crate::numbers::number_of;
use crate::quick::read_node;
use crate::sizes::net_sizes;
use crn_ctext::{Due, Expect, Word};
use crn_ctree::{KnownCut, KnownCuts, Node, SharedCut, Step, TreeCheck, TreeFault};
use crn_io::{NoMemory, Source};
use crn_net::Network;
use crn_reading::{CheckStop, Reading, next_line};
use std::alloc::Global;

/// What is due if a node of a tree is; cuts of part A in it have `count_a` numbers.
pub(crate) fn node_expect(version: u32, net: &Network, count_a: u32, shared: u32) -> Expect<'static>
    requires version { IsVersion version }
    requires few { count_a ≤ MAX_NUMBERS }
    ensures { ExpectsNode result version count_a (length net.now.names) shared }
{
    Expect {
        due: Due::Node {
            count_a,
            count_b: net.species() as u32,
            shared,
        },
        version,
        after_tree: false,
        sizes: net_sizes(net),
    }
}

/// What a line of a tree is: a record of this word, which was read, or the cut of the line at this place of those that
/// were met.
#[derive(Clone, Copy)]
pub(crate) enum NodeLine {
    Read(Word),
    Known(usize),
}

// Keeps the line of a cut that says its multipliers, if there is room, with the cut worked out.
fn keep<'a>(
    alloc: Global,
    expect: &Expect,
    cuts: &KnownCuts<'a>,
    met: &mut MetLines<'a>,
    line: &[u8],
    word: Word,
    node: &Node,
) -> Result<NodeLine, NoMemory>
    requires cut { is_cut (said_by node.now) ≡ true }
    requires numbers { AreNumbersFor (problem_of cuts.now.net cuts.now.problem) (said_by node.now) }
    requires says { (r : Record) × SaysPlainly expect.now line.now (said_by node.now) r }
    requires met { AreMet expect.now cuts.now.net cuts.now.problem met.old.lines.items }
    ensures node_line { (r : Record) (read : List ℤ)
        → SaysPlainly expect.now line.now (said_by node.now) r → IsSaidAs expect.now word read r
        → IfOk result (λ l. IsNodeLineAs expect.now cuts.now.net cuts.now.problem
        met.new.lines.items l read r) }
    ensures met { OnOk result
        (AreMet expect.now cuts.now.net cuts.now.problem met.new.lines.items) }
{
    let _ = expect.version;
    if !met.has_room(line) {
        return Ok(NodeLine::Read(word));
    }
    let cut = cuts.work_out(alloc, node)?;
    let i = met.add(alloc, line, cut)?;
    Ok(NodeLine::Known(i))
}

// Keeps a line that was read, if it says a cut and there is room.
fn keep_cut<'a>(
    alloc: Global,
    expect: &Expect,
    cuts: &KnownCuts<'a>,
    met: &mut MetLines<'a>,
    line: &[u8],
    word: Word,
    numbers: &[i128],
) -> Result<NodeLine, NoMemory>
    requires node { let a = count_a_of cuts.now.net cuts.now.problem in (version shared : ℕ)
        × ExpectsNode expect.now version a (length cuts.now.net.names) shared }
    requires read { IsReadAs expect.now line.now word numbers.now }
    requires met { AreMet expect.now cuts.now.net cuts.now.problem met.old.lines.items }
    ensures node_line { (h : IsReadAs expect.now line.now word numbers.now)
        → IfOk result (λ l. IsNodeLineAs expect.now cuts.now.net cuts.now.problem
        met.new.lines.items l numbers.now h.said) }
    ensures met { OnOk result
        (AreMet expect.now cuts.now.net cuts.now.problem met.new.lines.items) }
{
    match word {
        Word::CutA => keep(alloc, expect, cuts, met, line, word, &Node::CutA(numbers)),
        Word::CutB => keep(alloc, expect, cuts, met, line, word, &Node::CutB(numbers)),
        _ => Ok(NodeLine::Read(word)),
    }
}

// The next line, which has to be a node of a tree. The numbers of one that was not met before are put into the list.
fn next_node_line<'a, S: Source>(
    source: &mut S,
    at: &mut Reading,
    expect: &Expect,
    cuts: &KnownCuts<'a>,
    met: &mut MetLines<'a>,
) -> Result<NodeLine, CheckStop>
    requires goes { GoesOn at.old }
    requires node { let a = count_a_of cuts.now.net cuts.now.problem in (version shared : ℕ)
        × ExpectsNode expect.now version a (length cuts.now.net.names) shared }
    requires met { AreMet expect.now cuts.now.net cuts.now.problem met.old.lines.items }
    ensures step { StepIs (asks_node_for expect.now at.old.line)
        (λ l r. IsNodeLineAs expect.now cuts.now.net cuts.now.problem met.new.lines.items l
        at.new.numbers.list r)
        result at.old at.new (S.seen source.old) (S.seen source.new) }
    ensures met { OnOk result
        (AreMet expect.now cuts.now.net cuts.now.problem met.new.lines.items) }
    ensures goes { OnOk result (GoesOn at.new) }
    ensures line { OnOk result (at.new.line ≡ at.old.line + 1) }
    ensures version { at.new.version ≡ at.old.version }
{
    next_line(source, at, true)?;
    at.numbers.clear();
    let line = at.lines.line();
    if let Some(i) = met.find(line) {
        return Ok(NodeLine::Known(i));
    }
    match read_node(expect, line, &mut at.numbers) {
        Ok(word) => {
            let numbers = at.numbers.as_slice();
            let node_line = keep_cut(at.alloc, expect, cuts, met, line, word, numbers)?;
            Ok(node_line)
        }
        Err(code) => Err(CheckStop::Rejected {
            code: code.number(),
            line: at.line - 1,
        }),
    }
}

// Tests a cut by a shared list at the prefix that is due, and takes it if it passes.
fn judge_shared(
    net: &Network,
    cuts: &KnownCuts,
    check: &mut TreeCheck,
    cut: SharedCut,
) -> Result<Step, TreeFault>
    requires cuts { (cuts.now.net ≡ net.now) × (cuts.now.problem ≡ check.old.problem) }
    requires due { check.old.due ≢ [] }
    requires choices { check.old.choices ≡ (problem_of net.now check.old.problem).choices }
    requires place { IsPlaceIn cuts.now.table cut }
    ensures gives { SharedGives (problem_of net.now check.old.problem) check.old.due
        (said_by_shared cuts.now.table cut) check.new.due result }
    ensures choices { check.new.choices ≡ check.old.choices }
    ensures problem { check.new.problem ≡ check.old.problem }
{
    let _ = net.species();
    check.known_node(cuts, cut)
}

// Tests the node of this word with these numbers at the prefix that is due, and takes it if it passes.
fn judge_new(
    net: &Network,
    cuts: &KnownCuts,
    check: &mut TreeCheck,
    word: Word,
    numbers: &[i128],
) -> Result<Step, TreeFault>
    requires few { length cuts.now.table ≤ MAX_SHARED }
    requires cuts { (cuts.now.net ≡ net.now) × (cuts.now.problem ≡ check.old.problem) }
    requires due { check.old.due ≢ [] }
    requires choices { check.old.choices ≡ (problem_of net.now check.old.problem).choices }
    requires node { let a = count_a_of net.now check.old.problem in (version : ℕ) × (r : Record)
        × IsNode version a (length net.now.names) (length cuts.now.table) word numbers.now r }
    ensures gives { (version : ℕ) (r : Record)
        → IsNode version (count_a_of net.now check.old.problem) (length net.now.names)
        (length cuts.now.table) word numbers.now r
        → JudgeGives (problem_of net.now check.old.problem) check.old.due (node_of cuts.now.table r)
        check.new.due result }
    ensures choices { check.new.choices ≡ check.old.choices }
    ensures problem { check.new.problem ≡ check.old.problem }
{
    match word {
        Word::Split => check.node(net, &Node::Split),
        Word::Flat => check.node(net, &Node::Flat),
        Word::CutA => check.node(net, &Node::CutA(numbers)),
        Word::CutB => check.node(net, &Node::CutB(numbers)),
        Word::RefA => judge_shared(net, cuts, check, SharedCut::A(number_of(numbers, 0))),
        _ => judge_shared(net, cuts, check, SharedCut::B(number_of(numbers, 0))),
    }
}

// Tests a cut that was met at the prefix that is due, and takes it if it passes.
fn judge_met(
    net: &Network,
    cuts: &KnownCuts,
    check: &mut TreeCheck,
    cut: &KnownCut,
) -> Result<Step, TreeFault>
    requires cuts { (cuts.now.net ≡ net.now) × (cuts.now.problem ≡ check.old.problem) }
    requires due { check.old.due ≢ [] }
    requires cut { (r : Record) × IsCutOf net.now check.old.problem cut.now r }
    ensures gives { (table : List (List ℤ)) (r : Record)
        → IsCutOf net.now check.old.problem cut.now r
        → JudgeGives (problem_of net.now check.old.problem) check.old.due (node_of table r)
        check.new.due result }
    ensures choices { check.new.choices ≡ check.old.choices }
    ensures problem { check.new.problem ≡ check.old.problem }
{
    let _ = net.species();
    check.cut_node(cuts, cut)
}

// Tests the node of a line with these numbers at the prefix that is due, and takes it if it passes.
fn judge(
    net: &Network,
    cuts: &KnownCuts,
    met: &MetLines,
    check: &mut TreeCheck,
    node_line: NodeLine,
    numbers: &[i128],
) -> Result<Step, TreeFault>
    requires few { length cuts.now.table ≤ MAX_SHARED }
    requires cuts { (cuts.now.net ≡ net.now) × (cuts.now.problem ≡ check.old.problem) }
    requires due { check.old.due ≢ [] }
    requires choices { check.old.choices ≡ (problem_of net.now check.old.problem).choices }
    requires node { let a = count_a_of net.now check.old.problem in (version : ℕ) × (r : Record)
        × IsDueNodeLine version a (length net.now.names) (length cuts.now.table) net.now
        check.old.problem met.now.lines.items node_line numbers.now r }
    ensures gives { (version : ℕ) (r : Record)
        → IsDueNodeLine version (count_a_of net.now check.old.problem) (length net.now.names)
        (length cuts.now.table) net.now check.old.problem met.now.lines.items node_line
        numbers.now r
        → JudgeGives (problem_of net.now check.old.problem) check.old.due (node_of cuts.now.table r)
        check.new.due result }
    ensures choices { check.new.choices ≡ check.old.choices }
    ensures problem { check.new.problem ≡ check.old.problem }
{
    match node_line {
        NodeLine::Read(word) => judge_new(net, cuts, check, word, numbers),
        NodeLine::Known(i) => judge_met(net, cuts, check, &met.lines[i].cut),
    }
}

// The next line, which has to be a node that passes its test at the prefix that is due.
pub(crate) fn next_node<'a, S: Source>(
    source: &mut S,
    at: &mut Reading,
    net: &Network,
    expect: &Expect,
    cuts: &KnownCuts<'a>,
    met: &mut MetLines<'a>,
    check: &mut TreeCheck,
) -> Result<Step, CheckStop>
    requires goes { GoesOn at.old }
    requires few { length cuts.now.table ≤ MAX_SHARED }
    requires node { let a = count_a_of cuts.now.net cuts.now.problem in
        ExpectsNode expect.now at.old.version a (length cuts.now.net.names)
        (length cuts.now.table) }
    requires met { AreMet expect.now cuts.now.net cuts.now.problem met.old.lines.items }
    requires cuts { (cuts.now.net ≡ net.now) × (cuts.now.problem ≡ check.old.problem) }
    requires due { check.old.due ≢ [] }
    requires choices { check.old.choices ≡ (problem_of net.now check.old.problem).choices }
    ensures step { let prefix = first check.old.due in
        let p = problem_in net.now check.old.problem in
        StepIs (asks_one at.old.version cuts.now.table p prefix at.old.line)
        (λ _ node. check.new.due ≡ after_node prefix (rest check.old.due) node)
        result at.old at.new (S.seen source.old) (S.seen source.new) }
    ensures leaves { IfOk result (λ step. Leaves step check.new.due) }
    ensures taken { OnOk result
        (TakesSome (problem_of net.now check.old.problem) check.old.due check.new.due) }
    ensures met { OnOk result
        (AreMet expect.now cuts.now.net cuts.now.problem met.new.lines.items) }
    ensures choices { check.new.choices ≡ check.old.choices }
    ensures problem { check.new.problem ≡ check.old.problem }
    ensures goes { OnOk result (GoesOn at.new) }
    ensures line { OnOk result (at.new.line ≡ at.old.line + 1) }
    ensures version { at.new.version ≡ at.old.version }
{
    let node_line = next_node_line(source, at, expect, cuts, met)?;
    match judge(net, cuts, met, check, node_line, at.numbers.as_slice()) {
        Ok(step) => Ok(step),
        Err(fault) => Err(CheckStop::Rejected {
            code: fault.code(),
            line: at.line - 1,
        }),
    }
}
