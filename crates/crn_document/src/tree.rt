ghost use Rattle.std.specs.Prelude.{◌≡◌, ◌≤◌, [], length, true, false, OnOk};
ghost use Rattle.crn_io.specs.declared.lines.TheConstants.{MAX_NUMBERS, MAX_SHARED};
ghost use Rattle.crn_vec.specs.Network.{IsNetwork};
ghost use Rattle.crn_ctree.specs.Laws.{Shows};
ghost use Rattle.crn_cert.specs.Says.{IsTrueOf};
ghost use Rattle.crn_cert.specs.Valid.{HasVector};
ghost use Rattle.crn_ctext.specs.Blocks.{asks_tree, asks_trees};
ghost use Rattle.crn_ctext.specs.Meaning.{problems_by};
ghost use Rattle.crn_check.specs.Facts.{asked};
ghost use Rattle.crn_check.specs.Check.{AsksForTree, shown_by_tree, tree_place};
ghost use Rattle.crn_document.specs.Inner.Blocks.{IsReadyFor};
ghost use Rattle.crn_document.specs.Inner.Heads.{known_of};
ghost use Rattle.crn_reading.specs.Steps.{GoesOn, StepIs};
ghost use Rattle.crn_document.specs.Inner.Trees.{count_a, problem_in};

use crate::block::Checked;
use crate::met::MetLines;
use crate::node::{next_node, node_expect};
use crate::signal_trees::next_signal_trees;
use crn_ctree::{InfluenceTable, KnownCuts, Problem, SharedTable, Step, TreeCheck};
use crn_io::Source;
use crn_net::Network;
use crn_reading::{CheckStop, Reading};

// How many numbers a cut of part A of a sign problem has.
fn count_a(net: &Network, problem: Problem) -> u32
    ensures count { result ≡ count_a net.now problem.entry }
    ensures few { result ≤ MAX_NUMBERS }
{
    match problem {
        Problem::Concordance(_) => net.species() as u32,
        Problem::Signals(shape) => shape.rows() as u32,
    }
}

// The tree of a sign problem, whose nodes are the next lines. Each is tested as soon as it is read, and none is kept.
pub(crate) fn next_tree<S: Source>(
    source: &mut S,
    at: &mut Reading,
    net: &Network,
    table: &SharedTable,
    problem: Problem,
) -> Result<(), CheckStop>
    requires goes { GoesOn at.old }
    requires network { IsNetwork net.now }
    requires few { length table.now ≤ MAX_SHARED }
    ensures step { let p = problem_in net.now problem.entry in
        StepIs (asks_tree at.old.version table.now p p.choices [] at.old.line)
        (λ _ line. line ≡ at.new.line)
        result at.old at.new (S.seen source.old) (S.seen source.new) }
    ensures shown { OnOk result (Shows net.now problem.entry) }
    ensures goes { OnOk result (GoesOn at.new) }
    ensures version { at.new.version ≡ at.old.version }
{
    let count = count_a(net, problem);
    let cuts = KnownCuts::new(at.alloc, net, problem, table)?;
    let expect = node_expect(at.version, net, count, cuts.len() as u32);
    let mut met = MetLines::new(at.alloc, at.version)?;
    let mut check = TreeCheck::new(at.alloc, net, problem)?;
    'nodes: loop {
        match next_node(source, at, net, &expect, &cuts, &mut met, &mut check)? {
            Step::More => {}
            Step::Complete => return Ok(()),
        }
    }
}

// Whether trees follow the records below a head, by its question and the place of its form, both counted from 1.
pub(crate) fn ends_in_tree(question: u32, place: u32) -> bool
    ensures some { result ≡ true → AsksForTree question × (place ≡ tree_place question) }
    ensures none { result ≡ false → AsksForTree question → place ≡ tree_place question → ⊥ }
{
    if question == 13 {
        return place == 2;
    }
    if place != 1 {
        return false;
    }
    if question == 14 {
        return true;
    }
    question == 15
}

// The trees that show a verdict on this question, whose nodes are the next lines.
pub(crate) fn next_trees<S: Source>(
    source: &mut S,
    at: &mut Reading,
    net: &Network,
    table: &SharedTable,
    checked: &Checked,
    question: u32,
) -> Result<(), CheckStop>
    requires goes { GoesOn at.old }
    requires few { length table.now ≤ MAX_SHARED }
    requires tree { AsksForTree question }
    requires ready { IsReadyFor net.now question checked.now }
    requires vector { question ≡ 13 → HasVector checked.now.facts.earlier }
    ensures step { let known = known_of net.now checked.now.facts.earlier in
        let due = problems_by (asked question) known (tree_place question) in
        StepIs (asks_trees at.old.version table.now due at.old.line)
        (λ _ line. line ≡ at.new.line)
        result at.old at.new (S.seen source.old) (S.seen source.new) }
    ensures shown { OnOk result
        (IsTrueOf net.now (asked question) (shown_by_tree (asked question))) }
    ensures goes { OnOk result (GoesOn at.new) }
    ensures version { at.new.version ≡ at.old.version }
{
    if question == 13 {
        return next_signal_trees(source, at, net, table, checked);
    }
    if question == 14 {
        let plain = Problem::Concordance(InfluenceTable::Plain);
        return next_tree(source, at, net, table, plain);
    }
    let strong = Problem::Concordance(InfluenceTable::Strong);
    next_tree(source, at, net, table, strong)
}
