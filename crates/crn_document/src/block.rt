ghost use Rattle.std.specs.Prelude.{◌≡◌, ◌≤◌, ◌+◌, ◌++◌, ℕ, ℤ, List, [], ◌∷◌, false, length, IfOk, OnOk};
ghost use Rattle.crn_io.specs.Device.{SourceSeen};
ghost use Rattle.crn_io.specs.declared.lines.TheConstants.{MAX_SHARED};
ghost use Rattle.crn_ctext.specs.Records.{Record};
ghost use Rattle.crn_cert.specs.declared.answer.Proof.TheVariants.{Sides};
ghost use Rattle.crn_cert.specs.Formed.{IsFormed};
ghost use Rattle.crn_cert.specs.Tests.{AllHold};
ghost use Rattle.crn_cert.specs.Valid.{HasVector, head_tests, tests_of};
ghost use Rattle.crn_ctext.specs.Blocks.{asks_block, asks_trees};
ghost use Rattle.crn_ctext.specs.Meaning.{meaning, number, problems_by};
ghost use Rattle.crn_check.specs.Facts.{AreFactsOf, asked};
ghost use Rattle.crn_check.specs.Check.{AsksForTree, HoldsNoTree, IsBuilt, Judges, shown_by_tree, tree_place};
ghost use Rattle.crn_cert.specs.Verdicts.{tight};
ghost use Rattle.crn_document.specs.Facts.{with_next};
ghost use Rattle.crn_reading.specs.Steps.{GoesOn, StepIs};
ghost use Rattle.crn_document.specs.Inner.Answer.{AreSmall};
ghost use Rattle.crn_document.specs.Inner.Heads.{IsHead, class_count, known_of};
ghost use Rattle.crn_document.specs.Inner.Blocks.{HeadHolds, IsAfter, IsBlock, IsRead, IsReady, IsReadyFor, Learns, after_at, after_by, end_course, head_course, rows_course, tests_course};

use crate::answer::{answer_of, bare_verdict};
use crate::head::next_head;
use crate::linkage::linkage_of;
use crate::lists::Lists;
use crate::numbers::number_of;
use crate::parts::{Part, parts_of};
use crate::rows::{Below, next_rows, rows_below};
use crate::signal_trees::shape_of;
use crate::tree::{ends_in_tree, next_trees};
use crn_cert::{Answer, Proof, Rows, Verdict};
use crn_check::{CheckFault, Facts, accept_tree, check_answer, check_head, check_signal_answer};
use crn_ctree::SharedTable;
use crn_io::{NoMemory, Source};
use crn_net::Network;
use crn_reading::{CheckStop, Reading};
use crn_vec::{Ints, Nums};
use std::alloc::Global;
use std::mem::drop;

// The verdicts that were accepted so far, as facts for the tests of later blocks; the sides of a yes to question 11; and
// whether the last block ended in a tree.
#[derive(Drop)]
pub(crate) struct Checked {
    pub(crate) facts: Facts,
    pub(crate) sides: Rows,
    pub(crate) by_tree: bool,
}

// The block of a question without its trees: the line of its head, the numbers of the head, the ranks that the records
// below it prove, and the numbers of these records.
#[derive(Clone, Copy)]
pub(crate) struct Block<'a> {
    pub(crate) question: u32,
    pub(crate) line: u32,
    pub(crate) head: &'a [i128],
    pub(crate) parts: &'a [Part],
    pub(crate) rows: &'a Lists,
}

// Tests the records of an answer that no tree shows, and makes its verdict one of the facts.
fn check_records(
    alloc: Global,
    net: &Network,
    checked: &mut Checked,
    question: u32,
    answer: &Answer,
) -> Result<Result<(), CheckFault>, NoMemory>
    requires built { IsBuilt question }
    requires ready { IsReadyFor net.now question checked.old }
    requires heads { let earlier = checked.old.facts.earlier in
        AllHold (head_tests net.now earlier (asked question) answer.now.verdict) }
    requires formed { let earlier = checked.old.facts.earlier in
        IsFormed net.now earlier (asked question) answer.now }
    requires treeless { AsksForTree question → HoldsNoTree answer.now.proof }
    ensures judged { let earlier = checked.old.facts.earlier in IfOk result
        (Judges (tests_of net.now earlier (asked question) answer.now)) }
    ensures accepted { IfOk result (λ judged. OnOk judged (checked.new.facts.earlier
        ≡ checked.old.facts.earlier ++ (asked question, tight answer.now.verdict) ∷ [])) }
    ensures facts { AreFactsOf net.now checked.new.facts }
    ensures sides { checked.new.sides ≡ checked.old.sides }
{
    match &answer.verdict {
        Verdict::YesSignal { turn, .. } => {
            let shape = shape_of(alloc, net, checked, *turn)?;
            Ok(check_signal_answer(net, &shape, &mut checked.facts, answer))
        }
        _ => Ok(check_answer(net, &mut checked.facts, question, answer)),
    }
}

// Keeps the sides of a yes to question 11. Here and below answers, verdicts and proofs are dropped by calls, as a way out
// drops them variant by variant.
fn keep_sides(checked: &mut Checked, question: u32, proof: Proof)
    ensures facts { checked.new.facts ≡ checked.old.facts }
    ensures sides { question ≡ 11 → (sides : List (List ℤ)) → proof ≡ Sides sides
        → checked.new.sides ≡ sides }
    ensures same { (question ≡ 11 → ⊥) → checked.new.sides ≡ checked.old.sides }
{
    if question != 11 {
        drop(proof);
        return;
    }
    match proof {
        Proof::Sides(sides) => checked.sides = sides,
        other => drop(other),
    }
}

// Tests the records of a block that ends in no tree, and keeps the verdict.
fn accept(
    at: &Reading,
    net: &Network,
    checked: &mut Checked,
    block: &Block,
) -> Result<(), CheckStop>
    requires goes { GoesOn at.now }
    requires read { IsRead net.now checked.old at.now.line block.now }
    requires treeless { let place = number block.now.head.now 0 in
        AsksForTree block.now.question → place ≡ tree_place block.now.question → ⊥ }
    ensures step { let earlier = checked.old.facts.earlier in
        let q = block.now.question in
        (h : Record) (rs : List Record) (seen : SourceSeen)
        → IsBlock net.now earlier block.now h rs
        → StepIs (tests_course net.now earlier q block.now.line h rs)
        (λ _ _. Learns net.now earlier q checked.new.facts.earlier h rs)
        result at.now at.now seen seen }
    ensures ready { OnOk result
        (IsReady net.now (with_next checked.old.facts.earlier block.now.question) checked.new) }
{
    let answer = answer_of(at.alloc, block)?;
    let Ok(judged) = check_records(at.alloc, net, checked, block.question, &answer) else {
        drop(answer);
        return Err(CheckStop::NoMemory);
    };
    drop(answer.verdict);
    match judged {
        Ok(()) => {
            keep_sides(checked, block.question, answer.proof);
            Ok(())
        }
        Err(fault) => {
            drop(answer.proof);
            Err(CheckStop::Rejected {
                code: fault.code,
                line: block.line + fault.part,
            })
        }
    }
}

// Reads the trees that show a verdict on this question, and keeps the verdict.
fn accept_shown<S: Source>(
    source: &mut S,
    at: &mut Reading,
    net: &Network,
    table: &SharedTable,
    checked: &mut Checked,
    question: u32,
) -> Result<(), CheckStop>
    requires goes { GoesOn at.old }
    requires few { length table.now ≤ MAX_SHARED }
    requires tree { AsksForTree question }
    requires built { IsBuilt question }
    requires ready { IsReadyFor net.now question checked.old }
    requires vector { question ≡ 13 → HasVector checked.old.facts.earlier }
    ensures step { let known = known_of net.now checked.old.facts.earlier in
        let due = problems_by (asked question) known (tree_place question) in
        StepIs (asks_trees at.old.version table.now due at.old.line)
        (λ _ line. line ≡ at.new.line)
        result at.old at.new (S.seen source.old) (S.seen source.new) }
    ensures accepted { OnOk result (checked.new.facts.earlier
        ≡ checked.old.facts.earlier
        ++ (asked question, shown_by_tree (asked question)) ∷ []) }
    ensures goes { OnOk result (GoesOn at.new) }
    ensures version { at.new.version ≡ at.old.version }
    ensures ready { OnOk result
        (IsReady net.now (with_next checked.old.facts.earlier question) checked.new) }
{
    next_trees(source, at, net, table, checked, question)?;
    accept_tree(net, &mut checked.facts, question);
    Ok(())
}

// What is left of a block after its records: their tests, or the trees that show its verdict.
fn end_block<S: Source>(
    source: &mut S,
    at: &mut Reading,
    net: &Network,
    table: &SharedTable,
    checked: &mut Checked,
    block: &Block,
) -> Result<(), CheckStop>
    requires goes { GoesOn at.old }
    requires few { length table.now ≤ MAX_SHARED }
    requires read { IsRead net.now checked.old at.old.line block.now }
    ensures step { let earlier = checked.old.facts.earlier in
        (h : Record) (rs : List Record) (blocks : List (List Record))
        → IsBlock net.now earlier block.now h rs
        → StepIs (end_course at.old.version table.now (asked block.now.question)
        (after_at net.now earlier block.now.line blocks) h rs)
        (λ _ y. IsAfter net.now checked.new.facts.earlier checked.new.by_tree at.new.line y)
        result at.old at.new (S.seen source.old) (S.seen source.new) }
    ensures goes { OnOk result (GoesOn at.new) }
    ensures version { at.new.version ≡ at.old.version }
    ensures ready { OnOk result
        (IsReady net.now (with_next checked.old.facts.earlier block.now.question) checked.new) }
    ensures plain { OnOk result
        ((AsksForTree block.now.question → ⊥) → checked.new.by_tree ≡ false) }
{
    if ends_in_tree(block.question, number_of(block.head, 0)) {
        accept_shown(source, at, net, table, checked, block.question)?;
        checked.by_tree = true;
        return Ok(());
    }
    accept(at, net, checked, block)?;
    checked.by_tree = false;
    Ok(())
}

// The number of classes that a head says.
fn class_count(question: u32, head: &[i128]) -> u32
    requires { AreSmall head.now }
    ensures { result ≡ class_count question head.now }
{
    if question == 1 || question == 2 {
        return number_of(head, 1);
    }
    0
}

// The records below a head that was just read, and what follows them.
fn read_rows<S: Source>(
    source: &mut S,
    at: &mut Reading,
    net: &Network,
    table: &SharedTable,
    checked: &mut Checked,
    question: u32,
    head: &[i128],
) -> Result<(), CheckStop>
    requires goes { GoesOn at.old }
    requires few { length table.now ≤ MAX_SHARED }
    requires some { 1 ≤ at.old.line }
    requires built { IsBuilt question }
    requires ready { IsReadyFor net.now question checked.old }
    requires heads { HeadHolds net.now checked.old.facts.earlier question head.now }
    requires head { (h : Record)
        × IsHead net.now checked.old.facts.earlier question head.now h }
    ensures step { (h : Record) (n : ℕ) (blocks : List (List Record))
        → IsHead net.now checked.old.facts.earlier question head.now h → n + 1 ≡ at.old.line
        → StepIs (rows_course at.old.version table.now (asked question)
        (after_at net.now checked.old.facts.earlier n blocks) h)
        (λ _ y. IsAfter net.now checked.new.facts.earlier checked.new.by_tree at.new.line y)
        result at.old at.new (S.seen source.old) (S.seen source.new) }
    ensures goes { OnOk result (GoesOn at.new) }
    ensures version { at.new.version ≡ at.old.version }
    ensures ready { OnOk result
        (IsReady net.now (with_next checked.old.facts.earlier question) checked.new) }
    ensures plain { OnOk result ((AsksForTree question → ⊥) → checked.new.by_tree ≡ false) }
{
    let line = at.line - 1;
    let linkage = linkage_of(net, &checked.facts, question);
    let labels = linkage.labels;
    let classes = class_count(question, head);
    let parts = parts_of(at.alloc, net, labels, question, head)?;
    let place = number_of(head, 0);
    let due = rows_below(
        at.alloc,
        net,
        &checked.facts,
        linkage.count,
        question,
        place,
        &parts,
    )?;
    let mut members = Nums::with_room(at.alloc, net.reactions())?;
    let mut rows = Lists::new(at.alloc)?;
    let below = Below {
        net,
        labels,
        classes,
    };
    next_rows(source, at, &below, &due, &mut members, &mut rows)?;
    let block = Block {
        question,
        line,
        head,
        parts: &parts,
        rows: &rows,
    };
    end_block(source, at, net, table, checked, &block)
}

// The tests of the head that was just read, and the records below it.
fn after_head<S: Source>(
    source: &mut S,
    at: &mut Reading,
    net: &Network,
    table: &SharedTable,
    checked: &mut Checked,
    question: u32,
) -> Result<(), CheckStop>
    requires goes { GoesOn at.old }
    requires few { length table.now ≤ MAX_SHARED }
    requires some { 1 ≤ at.old.line }
    requires built { IsBuilt question }
    requires ready { IsReadyFor net.now question checked.old }
    requires head { (h : Record)
        × IsHead net.now checked.old.facts.earlier question at.old.numbers.list h }
    ensures step { (h : Record) (n : ℕ) (blocks : List (List Record))
        → IsHead net.now checked.old.facts.earlier question at.old.numbers.list h
        → n + 1 ≡ at.old.line
        → StepIs (head_course at.old.version table.now (asked question)
        (after_at net.now checked.old.facts.earlier n blocks) h)
        (λ _ y. IsAfter net.now checked.new.facts.earlier checked.new.by_tree at.new.line y)
        result at.old at.new (S.seen source.old) (S.seen source.new) }
    ensures goes { OnOk result (GoesOn at.new) }
    ensures version { at.new.version ≡ at.old.version }
    ensures ready { OnOk result
        (IsReady net.now (with_next checked.old.facts.earlier question) checked.new) }
    ensures plain { OnOk result ((AsksForTree question → ⊥) → checked.new.by_tree ≡ false) }
{
    let head = Ints::from_slice(at.alloc, at.numbers.as_slice())?;
    let verdict = bare_verdict(at.alloc, question, head.as_slice())?;
    let judged = check_head(net, &checked.facts, question, &verdict);
    drop(verdict);
    match judged {
        Ok(()) => read_rows(source, at, net, table, checked, question, head.as_slice()),
        Err(fault) => Err(CheckStop::Rejected {
            code: fault.code,
            line: at.line - 1 + fault.part,
        }),
    }
}

// The block of a question, after a tree or not.
pub(crate) fn next_block<S: Source>(
    source: &mut S,
    at: &mut Reading,
    net: &Network,
    table: &SharedTable,
    checked: &mut Checked,
    question: u32,
    after_tree: bool,
) -> Result<(), CheckStop>
    requires goes { GoesOn at.old }
    requires few { length table.now ≤ MAX_SHARED }
    requires built { IsBuilt question }
    requires ready { IsReadyFor net.now question checked.old }
    ensures step { (blocks : List (List Record)) →
        StepIs (asks_block meaning at.old.version table.now (asked question)
        (after_by net.now checked.old.facts.earlier after_tree at.old.line blocks))
        (λ _ y. IsAfter net.now checked.new.facts.earlier checked.new.by_tree at.new.line y)
        result at.old at.new (S.seen source.old) (S.seen source.new) }
    ensures goes { OnOk result (GoesOn at.new) }
    ensures version { at.new.version ≡ at.old.version }
    ensures ready { OnOk result
        (IsReady net.now (with_next checked.old.facts.earlier question) checked.new) }
    ensures plain { OnOk result ((AsksForTree question → ⊥) → checked.new.by_tree ≡ false) }
{
    next_head(source, at, net, &checked.facts, question, after_tree)?;
    after_head(source, at, net, table, checked, question)
}
