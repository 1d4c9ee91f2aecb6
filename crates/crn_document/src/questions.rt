ghost use Rattle.std.specs.Prelude.{◌≡◌, ◌≤◌, ◌+◌, ◌-◌, List, [], ◌∷◌, length, map, drop, take, slice_index_or, false, OnOk};
ghost use Rattle.crn_io.specs.declared.lines.TheConstants.{MAX_SHARED};
ghost use Rattle.crn_cert.specs.Built.{built};
ghost use Rattle.crn_ctext.specs.Records.{Record};
ghost use Rattle.crn_ctext.specs.Kinds.{section_form};
ghost use Rattle.crn_ctext.specs.Questions.{opens};
ghost use Rattle.crn_ctext.specs.Expect.{section_names};
ghost use Rattle.crn_ctext.specs.Blocks.{asks_all, asks_blocks, sections};
ghost use Rattle.crn_ctext.specs.Meaning.{meaning};
ghost use Rattle.crn_check.specs.Facts.{asked};
ghost use Rattle.crn_check.specs.Check.{IsBuilt};
ghost use Rattle.crn_reading.specs.Steps.{GoesOn, StepIs};
ghost use Rattle.crn_document.specs.Inner.Records.{Expects};
ghost use Rattle.crn_document.specs.Inner.Blocks.{IsAfter, IsAt, IsOpened, IsReady, after_by};

use crate::block::{Checked, next_block};
use crate::sizes::net_sizes;
use crn_cert::question_number;
use crn_ctext::{Due, Expect};
use crn_ctree::SharedTable;
use crn_io::Source;
use crn_net::Network;
use crn_reading::{CheckStop, Reading, next_record};

// The place of the last question among those that are answered, counted from 1.
const LAST: u32 = 15;

// The number of the question that is answered at this place, counted from 1.
fn question_at(place: u32) -> u32
    requires first { 1 ≤ place }
    requires last { place ≤ length built }
    ensures { IsAt place result }
{
    question_number(place as usize) as u32
}

// The number of the section that opens before a question, and 0 if none does.
fn section_before(question: u32) -> u32
    requires { IsBuilt question }
    ensures none { result ≡ 0 → opens (asked question) ≡ [] }
    ensures some { 1 ≤ result
        → opens (asked question) ≡ slice_index_or section_names (result - 1) [] ∷ [] }
    ensures few { result ≤ 6 }
{
    match question {
        1 => 1,
        5 => 2,
        7 => 3,
        9 => 4,
        11 => 5,
        14 => 6,
        _ => 0,
    }
}

// What is due if this section opens before a question.
fn section_expect(net: &Network, section: u32, after_tree: bool) -> Expect<'static>
    requires { (1 ≤ section) × (section ≤ 6) }
    ensures { Expects result 2 after_tree
        (section_form (slice_index_or section_names (section - 1) []) ∷ []) }
{
    Expect {
        due: Due::Section(section),
        version: 2,
        after_tree,
        sizes: net_sizes(net),
    }
}

// The line that opens a section before this question, if it opens one, after a tree or not. Says whether the line
// before the next one ended a tree.
fn next_section<S: Source>(
    source: &mut S,
    at: &mut Reading,
    net: &Network,
    question: u32,
    after_tree: bool,
) -> Result<bool, CheckStop>
    requires goes { GoesOn at.old }
    requires built { IsBuilt question }
    ensures step { let forms = map section_form (sections at.old.version (asked question)) in
        StepIs (asks_all at.old.version at.old.line after_tree forms)
        (λ still rs. IsOpened at.old at.new after_tree still rs)
        result at.old at.new (S.seen source.old) (S.seen source.new) }
    ensures goes { OnOk result (GoesOn at.new) }
    ensures version { at.new.version ≡ at.old.version }
{
    if at.version != 2 {
        return Ok(after_tree);
    }
    let section = section_before(question);
    if section == 0 {
        return Ok(after_tree);
    }
    let expect = section_expect(net, section, after_tree);
    next_record(source, at, &expect)?;
    Ok(false)
}

// The blocks of the question at this place among those that are answered, counted from 1, and of those after it.
pub(crate) fn next_blocks<S: Source>(
    source: &mut S,
    at: &mut Reading,
    net: &Network,
    table: &SharedTable,
    checked: &mut Checked,
    place: u32,
) -> Result<(), CheckStop>
    requires goes { GoesOn at.old }
    requires few { length table.now ≤ MAX_SHARED }
    requires first { 1 ≤ place }
    requires last { place ≤ length built + 1 }
    requires ready { IsReady net.now (take (place - 1) built) checked.old }
    ensures step { (blocks : List (List Record)) →
        StepIs (asks_blocks meaning at.old.version table.now (drop (place - 1) built)
        (after_by net.now checked.old.facts.earlier checked.old.by_tree at.old.line blocks))
        (λ _ y. IsAfter net.now checked.new.facts.earlier checked.new.by_tree at.new.line y)
        result at.old at.new (S.seen source.old) (S.seen source.new) }
    ensures goes { OnOk result (GoesOn at.new) }
    ensures version { at.new.version ≡ at.old.version }
    ensures ready { OnOk result (IsReady net.now built checked.new) }
{
    if place > LAST {
        return Ok(());
    }
    let question = question_at(place);
    let after_tree = next_section(source, at, net, question, checked.by_tree)?;
    next_block(source, at, net, table, checked, question, after_tree)?;
    next_blocks(source, at, net, table, checked, place + 1)
}
