ghost use Rattle.std.specs.Prelude.{◌≡◌, ◌≤◌, ◌+◌, ◌++◌, [], ◌∷◌, length, map, pos, replicate, false, IfOk, OnOk};
ghost use Rattle.std.specs.List.{AllByRecursion, flat_map};
ghost use Rattle.crn_vec.specs.declared.limits.TheConstants.{MAX_COMPLEXES};
ghost use Rattle.crn_io.specs.declared.lines.TheConstants.{MAX_NUMBERS};
ghost use Rattle.crn_ctext.specs.Records.{Record};
ghost use Rattle.crn_ctext.specs.Blocks.{asks, asks_all};
ghost use Rattle.crn_ctext.specs.Expect.{sizes_of, tag_of};
ghost use Rattle.crn_ctext.specs.declared.expect.Due.TheVariants.{Part as DuePart};
ghost use Rattle.crn_reading.specs.Steps.{IsVersion, GoesOn, StepIs};
ghost use Rattle.crn_document.specs.Inner.Records.{AreMembers, AreRows, Expects, IsRow, IsRowDue, MayBeRow, fixed_rows, many_rows, pair_rows, part_rows, row_form, rows_below};
ghost use Rattle.crn_document.specs.Facts.{IsKnownFor};
ghost use Rattle.crn_document.specs.declared.rows.Row.TheVariants.{M, Mu, Shelves, Side, Weights};
ghost use Rattle.crn_cert.specs.Questions.{Q2, on, terminal_of};
ghost use Rattle.crn_cert.specs.Valid.{strong, exits};
ghost use Rattle.crn_check.specs.Check.{IsBuilt};

use crate::linkage::fill_members;
use crate::lists::Lists;
use crate::parts::Part;
use crate::sizes::net_sizes;
use crate::strong::{pairs_in, strong_of};
use crn_check::Facts;
use crn_ctext::{Due, Expect, Word};
use crn_io::{NoMemory, Source};
use crn_net::Network;
use crn_reading::{CheckStop, Reading, next_record};
use crn_vec::Nums;
use std::alloc::Global;

// A record below a head.
#[derive(Clone, Copy)]
pub(crate) enum Row {
    Label,
    Up,
    Depth,
    From,
    FromDepth,
    To,
    ToDepth,
    Level,
    Exit,
    Back,
    // This many reactions of a linkage class, or of the network for class 0.
    Base { class: u32, rank: u32 },
    Dual,
    // After a base of this many reactions.
    Comb { rank: u32 },
    // A number for each reaction, or for each species.
    VecOfReactions,
    VecOfSpecies,
    CutOfReactions,
    CutOfSpecies,
    // A number for each complex.
    VecOfComplexes,
    // The side of the product of a reaction.
    Side { reaction: u32 },
    Walk,
    // A number for each species and for each of this many linkage classes.
    Tie { classes: u32 },
    // The lists of a signal: a shelf of each of this many terminal classes, a number for each species, and one number.
    Shelves { terminal: u32 },
    Mu,
    M,
    // A number for each reaction: the first list of a no on concordance, and the last one of it and of a signal.
    Alpha,
    Weights,
}

// The two lists of a no on concordance, by the question and the place of the head's form.
fn pair_rows(question: u32, place: u32) -> &'static [Row]
    ensures { result.now ≡ pair_rows question place }
{
    if question == 14 && place == 2 {
        return &[Row::Alpha, Row::Weights];
    }
    if question == 15 && place == 2 {
        return &[Row::Alpha, Row::Weights];
    }
    &[]
}

// The records below a head but for ranks, sides, ties and signals, by its question and the place of its form, both
// counted from 1.
fn fixed_rows(question: u32, place: u32) -> &'static [Row]
    ensures { result.now ≡ fixed_rows question place }
{
    if question == 1 {
        return &[Row::Label, Row::Up, Row::Depth];
    }
    if question == 2 {
        return &[
            Row::Label,
            Row::From,
            Row::FromDepth,
            Row::To,
            Row::ToDepth,
            Row::Level,
            Row::Exit,
        ];
    }
    if question == 3 && place == 1 {
        return &[Row::Back];
    }
    if question == 7 && place == 1 {
        return &[Row::VecOfReactions];
    }
    if question == 7 && place == 2 {
        return &[Row::CutOfSpecies];
    }
    if question == 8 && place == 1 {
        return &[Row::VecOfSpecies];
    }
    if question == 8 && place == 2 {
        return &[Row::CutOfReactions];
    }
    if question == 11 && place == 4 {
        return &[Row::Walk];
    }
    if question == 12 && place == 1 {
        return &[Row::VecOfComplexes];
    }
    if question == 12 && place == 4 {
        return &[Row::VecOfComplexes, Row::VecOfComplexes];
    }
    pair_rows(question, place)
}

// Adds the same record this many times.
fn push_times(into: &mut Vec<Row>, row: Row, count: u32) -> Result<(), NoMemory>
    ensures { OnOk result (into.new.items ≡ into.old.items ++ replicate count row) }
{
    if count == 0 {
        return Ok(());
    }
    into.push(row)?;
    push_times(into, row, count - 1)
}

// Adds the records that prove a rank.
fn push_part(into: &mut Vec<Row>, part: Part) -> Result<(), NoMemory>
    ensures { OnOk result (into.new.items ≡ into.old.items ++ part_rows part) }
{
    let rank = part.rank;
    into.reserve(1 + part.count as usize)?;
    into.push(Row::Base {
        class: part.class,
        rank,
    })?;
    push_times(into, Row::Dual, rank)?;
    push_times(into, Row::Comb { rank }, part.count.saturating_sub(rank))
}

// Adds the records that prove these ranks.
fn push_parts(into: &mut Vec<Row>, parts: &[Part]) -> Result<(), NoMemory>
    ensures { OnOk result (into.new.items ≡ into.old.items ++ flat_map part_rows parts.now) }
{
    match parts.split_first() {
        None => Ok(()),
        Some((part, rest)) => {
            push_part(into, *part)?;
            push_parts(into, rest)
        }
    }
}

// Adds the sides of these pairs, each by its least reaction.
fn push_sides(into: &mut Vec<Row>, pairs: &[u32]) -> Result<(), NoMemory>
    ensures { OnOk result (into.new.items ≡ into.old.items ++ map (λ r. Side r) pairs.now) }
{
    match pairs.split_first() {
        None => Ok(()),
        Some((reaction, rest)) => {
            into.push(Row::Side {
                reaction: *reaction,
            })?;
            push_sides(into, rest)
        }
    }
}

// Adds the lists of a signal.
fn push_signal(into: &mut Vec<Row>, terminal: u32) -> Result<(), NoMemory>
    ensures { OnOk result (into.new.items
        ≡ into.old.items ++ Shelves terminal ∷ Mu ∷ M ∷ Weights ∷ []) }
{
    into.push(Row::Shelves { terminal })?;
    into.push(Row::Mu)?;
    into.push(Row::M)?;
    into.push(Row::Weights)?;
    Ok(())
}

// Adds the sides, ties and lists of a signal below a head, by its question and the place of its form, both counted
// from 1.
fn push_many(
    alloc: Global,
    net: &Network,
    facts: &Facts,
    classes: u32,
    question: u32,
    place: u32,
    into: &mut Vec<Row>,
) -> Result<(), NoMemory>
    requires built { IsBuilt question }
    requires known { IsKnownFor net.now question facts.now }
    ensures { let earlier = facts.now.earlier in OnOk result (into.new.items ≡ into.old.items
        ++ many_rows net.now (strong earlier) (exits earlier) (terminal_of (on earlier Q2))
        classes question place) }
{
    if question == 11 && place == 1 {
        let pairs = pairs_in(alloc, net, &strong_of(facts))?;
        return push_sides(into, pairs.as_slice());
    }
    let complexes = net.complexes() as u32;
    if question == 12 && place == 1 {
        return push_times(into, Row::Tie { classes }, complexes.saturating_sub(1));
    }
    if question == 12 && place == 3 {
        return push_times(into, Row::Tie { classes }, complexes);
    }
    if question == 13 && place == 1 {
        return push_signal(into, strong_of(facts).terminal);
    }
    Ok(())
}

// The records below a head that proves these ranks, by its question and the place of its form, both counted from 1.
pub(crate) fn rows_below(
    alloc: Global,
    net: &Network,
    facts: &Facts,
    classes: u32,
    question: u32,
    place: u32,
    parts: &[Part],
) -> Result<Vec<Row>, NoMemory>
    requires built { IsBuilt question }
    requires known { IsKnownFor net.now question facts.now }
    ensures { let earlier = facts.now.earlier in
        let many = many_rows net.now (strong earlier) (exits earlier)
        (terminal_of (on earlier Q2)) classes question place in
        IfOk result (λ due. due.items ≡ rows_below question place many parts.now) }
{
    let mut due = Vec::new(alloc);
    due.extend_from_slice(fixed_rows(question, place))?;
    push_many(alloc, net, facts, classes, question, place, &mut due)?;
    push_parts(&mut due, parts)?;
    Ok(due)
}

// What the forms of the records below a head rest on: the network, the linkage classes of its complexes, and the number
// of classes that the head says.
#[derive(Clone, Copy)]
pub(crate) struct Below<'a> {
    pub(crate) net: &'a Network,
    pub(crate) labels: &'a [u32],
    pub(crate) classes: u32,
}

// A record of this word, with this many numbers from the least to the greatest.
fn part(word: Word, count: usize, least: u32, greatest: u32) -> Due<'static>
    requires { count ≤ MAX_NUMBERS }
    ensures { result ≡ DuePart word count (pos least) (pos greatest) }
{
    Due::Part {
        word,
        count: count as u32,
        least: i128::from(least),
        greatest: i128::from(greatest),
    }
}

// The record of this kind below a head, with these members for its base.
fn row_due<'a>(below: &Below, row: Row, members: &'a [u32]) -> Due<'a>
    requires few { below.now.classes ≤ MAX_COMPLEXES }
    requires may { MayBeRow row }
    requires members { AreMembers below.now.net.now below.now.labels.now row members.now }
    ensures { let b = below.now in
        IsRowDue (length b.net.now.complexes)
        (row_form b.net.now b.labels.now b.classes row) result }
{
    let c = below.net.complexes();
    let r = below.net.reactions();
    let s = below.net.species();
    let deep = (c as u32).saturating_sub(1);
    let classes = below.classes;
    match row {
        Row::Label => part(Word::Label, c, 1, classes),
        Row::Up => part(Word::Up, c, 0, r as u32),
        Row::Depth => part(Word::Depth, c, 0, deep),
        Row::From => part(Word::From, c, 0, r as u32),
        Row::FromDepth => part(Word::FromDepth, c, 0, deep),
        Row::To => part(Word::To, c, 0, r as u32),
        Row::ToDepth => part(Word::ToDepth, c, 0, deep),
        Row::Level => part(Word::Level, classes as usize, 0, c as u32),
        Row::Exit => part(Word::Exit, classes as usize, 0, r as u32),
        Row::Back => part(Word::Back, r, 1, r as u32),
        Row::Base { rank, .. } => Due::Base {
            count: rank,
            members,
        },
        Row::Dual => part(Word::Dual, s, 0, 0),
        Row::Comb { rank } => part(Word::Comb, 1 + rank as usize, 0, 0),
        Row::VecOfReactions => part(Word::Vec, r, 0, 0),
        Row::VecOfSpecies => part(Word::Vec, s, 0, 0),
        Row::CutOfReactions => part(Word::Cut, r, 0, 0),
        Row::CutOfSpecies => part(Word::Cut, s, 0, 0),
        Row::VecOfComplexes => part(Word::Vec, c, 0, 0),
        Row::Side { reaction } => Due::Side { reaction },
        Row::Walk => Due::Walk,
        Row::Tie { classes } => part(Word::Tie, s + classes as usize, 0, 0),
        Row::Shelves { terminal } => Due::Part {
            word: Word::Shelves,
            count: terminal,
            least: -1,
            greatest: 1,
        },
        Row::Mu => part(Word::Mu, s, 0, 0),
        Row::M => part(Word::M, 1, 0, 0),
        Row::Alpha => part(Word::Alpha, r, 0, 0),
        Row::Weights => part(Word::Weights, r, 0, 0),
    }
}

// What is due if the record of this kind is.
fn row_expect<'a>(version: u32, below: &Below, row: Row, members: &'a [u32]) -> Expect<'a>
    requires version { IsVersion version }
    requires few { below.now.classes ≤ MAX_COMPLEXES }
    requires may { MayBeRow row }
    requires members { AreMembers below.now.net.now below.now.labels.now row members.now }
    ensures due { Expects result version false
        (row_form below.now.net.now below.now.labels.now below.now.classes row ∷ []) }
    ensures untagged { (r : Record) → tag_of result.due (sizes_of result.sizes) r ≡ [] }
{
    let due = row_due(below, row, members);
    let sizes = net_sizes(below.net);
    Expect {
        due,
        version,
        after_tree: false,
        sizes,
    }
}

// Lists the reactions of a record that is a base.
fn fill_base(below: &Below, row: Row, members: &mut Nums) -> Result<(), NoMemory>
    ensures { OnOk result (AreMembers below.now.net.now below.now.labels.now row members.new.list) }
{
    if let Row::Base { class, .. } = row {
        return fill_members(below.net, below.labels, class, members);
    }
    Ok(())
}

// The next line, which has to be this record below a head. Its numbers are added to the rows.
fn next_row<S: Source>(
    source: &mut S,
    at: &mut Reading,
    below: &Below,
    row: Row,
    members: &mut Nums,
    into: &mut Lists,
) -> Result<(), CheckStop>
    requires goes { GoesOn at.old }
    requires few { below.now.classes ≤ MAX_COMPLEXES }
    requires may { MayBeRow row }
    ensures step { let b = below.now in
        let form = row_form b.net.now b.labels.now b.classes row in
        StepIs (asks at.old.version at.old.line false (form ∷ []))
        (λ _ r. IsRow form into.old into.new r)
        result at.old at.new (S.seen source.old) (S.seen source.new) }
    ensures goes { OnOk result (GoesOn at.new) }
    ensures line { OnOk result (at.new.line ≡ at.old.line + 1) }
    ensures version { at.new.version ≡ at.old.version }
{
    fill_base(below, row, members)?;
    let expect = row_expect(at.version, below, row, members.as_slice());
    next_record(source, at, &expect)?;
    into.push(at.numbers.as_slice())?;
    Ok(())
}

// The next lines, which have to be these records below a head. Their numbers are added to the rows.
pub(crate) fn next_rows<S: Source>(
    source: &mut S,
    at: &mut Reading,
    below: &Below,
    rows: &[Row],
    members: &mut Nums,
    into: &mut Lists,
) -> Result<(), CheckStop>
    requires goes { GoesOn at.old }
    requires few { below.now.classes ≤ MAX_COMPLEXES }
    requires may { AllByRecursion MayBeRow rows.now }
    ensures step { let b = below.now in
        let forms = map (row_form b.net.now b.labels.now b.classes) rows.now in
        StepIs (asks_all at.old.version at.old.line false forms)
        (λ _ rs. AreRows forms into.old into.new rs)
        result at.old at.new (S.seen source.old) (S.seen source.new) }
    ensures goes { OnOk result (GoesOn at.new) }
    ensures line { OnOk result (at.new.line ≡ at.old.line + length rows.now) }
    ensures version { at.new.version ≡ at.old.version }
{
    match rows.split_first() {
        None => Ok(()),
        Some((row, rest)) => {
            next_row(source, at, below, *row, members, into)?;
            next_rows(source, at, below, rest, members, into)
        }
    }
}
