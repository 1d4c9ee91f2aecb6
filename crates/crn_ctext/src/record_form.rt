ghost use Rattle.std.specs.Prelude.{◌≡◌, ◌<◌, ◌≤◌, ◌+◌, ◌-◌, [], ◌∷◌, unsigned_abs, slice_index_or, codes};
ghost use Rattle.std.specs.List.{list_any, AllByRecursion};
ghost use Rattle.crn_vec.specs.Lists.{IsAscending};
ghost use Rattle.std.specs.Str.{bytes_eq};
ghost use Rattle.crn_vec.specs.declared.limits.TheConstants.{MAX_COMPLEXES, MAX_REACTIONS, WIDE_SOLUTION};
ghost use Rattle.crn_io.specs.declared.lines.TheConstants.{MAX_NUMBERS};
ghost use Rattle.crn_ctext.specs.Records.{Members};
ghost use Rattle.crn_ctext.specs.Kinds.{small, just, record_form, node_forms, section_form};
ghost use Rattle.crn_ctext.specs.Expect.{text_of, free_words, part_field, section_names, IsExpectable};
ghost use Rattle.crn_ctext.specs.Inner.Forms.{IsNth, IsNthDue};

use crate::expect::{Due, Expect};
use crate::kinds::kinds;
use crate::record_heads::head;
use crate::record_shape::{Range, Shape};
use crate::word::Word;
use crn_io::MAX_SHARED;

/// A record that may be at a line.
#[derive(Clone, Copy)]
pub(crate) struct Form<'a> {
    pub(crate) word: Word,
    /// The words after it, each after a space.
    pub(crate) words: &'static [u8],
    /// The place among the forms of a head, from 1, or 0.
    pub(crate) place: u32,
    pub(crate) shape: Shape<'a>,
}

// The forms of a word by their numbers from 0: place, the words after the first, and the numbers.
macro_rules! forms {
    ($i:expr; $($nth:literal: $word:ident $place:literal $words:literal $shape:expr;)*) => {
        match $i {
            $($nth => Some(Form {
                word: Word::$word,
                words: $words,
                place: $place,
                shape: $shape,
            }),)*
            _ => None,
        }
    };
}

// This many numbers from the least to the greatest.
macro_rules! some {
    ($count:expr, $least:literal, $greatest:expr) => {
        Shape::Small {
            count: $count,
            range: Range {
                least: $least,
                greatest: i128::from($greatest),
            },
        }
    };
}

// One number from the least to the greatest.
macro_rules! one {
    ($least:literal, $greatest:expr) => {
        some!(1, $least, $greatest)
    };
}

pub(crate) use forms;
pub(crate) use one;
pub(crate) use some;

// Whether the numbers of a record with this word are free.
fn is_free(word: Word) -> bool
    ensures { result ≡ list_any (bytes_eq (text_of word)) free_words }
{
    kinds!(is_free word)
}

// A record of this word with this many numbers.
fn part<'a>(i: u32, word: Word, count: u32, range: Range) -> Option<Form<'a>>
    requires few { count ≤ MAX_NUMBERS }
    requires least { unsigned_abs range.least < WIDE_SOLUTION }
    requires greatest { unsigned_abs range.greatest < WIDE_SOLUTION }
    ensures { IsNth
        (record_form (text_of word)
        (part_field (text_of word) count range.least range.greatest ∷ []) ∷ []) i result }
{
    if i != 0 {
        return None;
    }
    let shape = if is_free(word) {
        Shape::Free(count)
    } else {
        Shape::Small { count, range }
    };
    Some(Form {
        word,
        words: b"",
        place: 0,
        shape,
    })
}

// A node of a tree.
fn node<'a>(i: u32, version: u32, count_a: u32, count_b: u32, shared: u32) -> Option<Form<'a>>
    requires few_a { count_a ≤ MAX_NUMBERS }
    requires few_b { count_b ≤ MAX_NUMBERS }
    ensures { IsNth (node_forms version count_a count_b shared) i result }
{
    if version == 2 {
        return forms!(i;
            0: Split 0 b"" Shape::Empty;
            1: Flat 0 b"" Shape::Empty;
            2: CutA 0 b"" Shape::Free(count_a);
            3: CutB 0 b"" Shape::Free(count_b);
            4: RefA 0 b"" one!(1, shared);
            5: RefB 0 b"" one!(1, shared);
        );
    }
    forms!(i;
        0: Split 0 b"" Shape::Empty;
        1: Flat 0 b"" Shape::Empty;
        2: CutA 0 b"" Shape::Free(count_a);
        3: CutB 0 b"" Shape::Free(count_b);
    )
}

fn base(i: u32, count: u32, members: &[u32]) -> Option<Form<'_>>
    requires few { count ≤ MAX_NUMBERS }
    requires ascending { IsAscending members.now }
    requires each { AllByRecursion (λ m. m ≤ MAX_REACTIONS) members.now }
    ensures { IsNth (record_form (codes "base") (Members count members.now ∷ []) ∷ []) i result }
{
    forms!(i; 0: Base 0 b"" Shape::Members { count, members };)
}

fn side<'a>(i: u32, reaction: u32, complexes: u32) -> Option<Form<'a>>
    requires { complexes ≤ MAX_COMPLEXES }
    ensures { IsNth
        (record_form (codes "side") (just reaction ∷ small complexes 0 1 ∷ []) ∷ []) i result }
{
    forms!(i; 0: Side 0 b"" Shape::Side { reaction, complexes };)
}

// The line that opens a section.
fn section<'a>(i: u32, number: u32) -> Option<Form<'a>>
    requires some { 1 ≤ number }
    requires known { number ≤ 6 }
    ensures { IsNth
        (section_form (slice_index_or section_names (number - 1) []) ∷ []) i result }
{
    match number {
        1 => forms!(i; 0: Section 0 b" graph" Shape::Empty;),
        2 => forms!(i; 0: Section 0 b" rank" Shape::Empty;),
        3 => forms!(i; 0: Section 0 b" dependence" Shape::Empty;),
        4 => forms!(i; 0: Section 0 b" theorems" Shape::Empty;),
        5 => forms!(i; 0: Section 0 b" confluence" Shape::Empty;),
        6 => forms!(i; 0: Section 0 b" concordance" Shape::Empty;),
        _ => unreachable!(),
    }
}

/// The form of this number, from 0, of the records that are due.
pub(crate) fn due_form<'a>(expect: &Expect<'a>, i: u32) -> Option<Form<'a>>
    requires { IsExpectable expect.now }
    ensures { IsNthDue expect.now i result }
{
    let sizes = &expect.sizes;
    match expect.due {
        Due::Head(question) => return head(question, i, sizes),
        Due::Base { count, members } => return base(i, count, members),
        Due::Side { reaction } => return side(i, reaction, sizes.complexes),
        Due::Walk => return forms!(i; 0: Walk 0 b"" Shape::Walk(sizes.complexes);),
        Due::Part {
            word,
            count,
            least,
            greatest,
        } => return part(i, word, count, Range { least, greatest }),
        Due::Node {
            count_a,
            count_b,
            shared,
        } => return node(i, expect.version, count_a, count_b, shared),
        Due::Finish => return forms!(i; 0: End 0 b"" Shape::Empty;),
        Due::Table => return forms!(i; 0: Vectors 0 b"" one!(0, MAX_SHARED as u32);),
        Due::Vector => return forms!(i; 0: Vector 0 b"" Shape::Vector;),
        Due::Section(number) => return section(i, number),
    }
}
