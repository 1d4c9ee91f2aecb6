ghost use Rattle.std.specs.Prelude.{◌≡◌, ◌<◌, ◌≤◌, ◌+◌};
ghost use Rattle.crn_cert.specs.Questions.{Q1, Q2, Q3, Q4, Q5, Q6, Q7, Q8, Q9, Q10, Q11, Q12, Q13, Q14, Q15};
ghost use Rattle.crn_ctext.specs.Questions.{heads};
ghost use Rattle.crn_ctext.specs.Expect.{sizes_of, question_of, AreSizes};
ghost use Rattle.crn_ctext.specs.Inner.Forms.{IsNthHead};

use crate::expect::Sizes;
use crate::record_form::{Form, forms, one, some};
use crate::record_shape::{Range, Shape};
use crate::word::Word;
use crn_vec::MAX_BUDGET;

// A system with this many columns and rows.
macro_rules! wide {
    ($system:literal, $columns:expr, $rows:expr) => {
        Shape::Wide {
            system: $system,
            columns: $columns,
            coordinates: $columns + $rows,
        }
    };
}

// A linkage class, and a number from 2 to that of the complexes.
macro_rules! class_and_count {
    ($sizes:expr) => {
        Shape::ClassAndCount {
            classes: $sizes.class_reactions.len() as u32,
            complexes: $sizes.complexes,
        }
    };
}

fn linkage_head<'a>(i: u32, sizes: &Sizes<'a>) -> Option<Form<'a>>
    requires { AreSizes sizes.now }
    ensures { IsNthHead (heads Q1 (sizes_of sizes.now)) i result }
{
    forms!(i;
        0: Q1 1 b"" one!(1, sizes.complexes);
    )
}

fn strong_head<'a>(i: u32, sizes: &Sizes<'a>) -> Option<Form<'a>>
    requires { AreSizes sizes.now }
    ensures { IsNthHead (heads Q2 (sizes_of sizes.now)) i result }
{
    forms!(i;
        0: Q2 1 b"" Shape::CountAndPart(sizes.complexes);
    )
}

fn reversible_head<'a>(i: u32, sizes: &Sizes<'a>) -> Option<Form<'a>>
    requires { AreSizes sizes.now }
    ensures { IsNthHead (heads Q3 (sizes_of sizes.now)) i result }
{
    forms!(i;
        0: Q3 1 b" yes" Shape::Empty;
        1: Q3 2 b" no" one!(1, sizes.reactions);
    )
}

fn weak_head<'a>(i: u32, sizes: &Sizes<'a>) -> Option<Form<'a>>
    requires { AreSizes sizes.now }
    ensures { IsNthHead (heads Q4 (sizes_of sizes.now)) i result }
{
    forms!(i;
        0: Q4 1 b" yes" Shape::Empty;
        1: Q4 2 b" no" one!(1, sizes.reactions);
    )
}

fn rank_head<'a>(i: u32, sizes: &Sizes<'a>) -> Option<Form<'a>>
    requires { AreSizes sizes.now }
    ensures { IsNthHead (heads Q5 (sizes_of sizes.now)) i result }
{
    forms!(i;
        0: Q5 1 b"" one!(1, sizes.species.min(sizes.reactions));
        1: Q5 2 b" open wide" wide!(1, sizes.species, sizes.reactions);
    )
}

fn deficiency_head<'a>(i: u32, sizes: &Sizes<'a>) -> Option<Form<'a>>
    requires { AreSizes sizes.now }
    ensures { IsNthHead (heads Q6 (sizes_of sizes.now)) i result }
{
    forms!(i;
        0: Q6 1 b"" some!(1 + sizes.class_reactions.len() as u32, 0, sizes.complexes);
        1: Q6 2 b" open wide" Shape::ClassWide { species: sizes.species, reactions: sizes.class_reactions };
        2: Q6 4 b" open rests" one!(5, 5u32);
    )
}

fn dependence_head<'a>(i: u32, sizes: &Sizes<'a>) -> Option<Form<'a>>
    requires { AreSizes sizes.now }
    ensures { IsNthHead (heads Q7 (sizes_of sizes.now)) i result }
{
    forms!(i;
        0: Q7 1 b" yes" Shape::Empty;
        1: Q7 2 b" no" Shape::Empty;
        2: Q7 3 b" open wide" wide!(2, sizes.reactions, sizes.species);
    )
}

fn conservation_head<'a>(i: u32, sizes: &Sizes<'a>) -> Option<Form<'a>>
    requires { AreSizes sizes.now }
    ensures { IsNthHead (heads Q8 (sizes_of sizes.now)) i result }
{
    forms!(i;
        0: Q8 1 b" yes" Shape::Empty;
        1: Q8 2 b" no" Shape::Empty;
        2: Q8 3 b" open wide" wide!(1, sizes.species, sizes.reactions);
    )
}

fn zero_theorem_head<'a>(i: u32, sizes: &Sizes<'a>) -> Option<Form<'a>>
    requires { AreSizes sizes.now }
    ensures { IsNthHead (heads Q9 (sizes_of sizes.now)) i result }
{
    forms!(i;
        0: Q9 1 b" yes" one!(0, 1u32);
        1: Q9 2 b" no" one!(1, sizes.complexes);
        2: Q9 5 b" open rests" one!(5, 5u32);
    )
}

fn one_theorem_head<'a>(i: u32, sizes: &Sizes<'a>) -> Option<Form<'a>>
    requires { AreSizes sizes.now }
    ensures { IsNthHead (heads Q10 (sizes_of sizes.now)) i result }
{
    forms!(i;
        0: Q10 1 b" yes" Shape::Empty;
        1: Q10 2 b" no terminal" class_and_count!(sizes);
        2: Q10 3 b" no class" class_and_count!(sizes);
        3: Q10 4 b" no sum" one!(0, sizes.complexes);
        4: Q10 7 b" open rests" one!(6, 6u32);
    )
}

fn regular_head<'a>(i: u32, sizes: &Sizes<'a>) -> Option<Form<'a>>
    requires { AreSizes sizes.now }
    ensures { IsNthHead (heads Q11 (sizes_of sizes.now)) i result }
{
    forms!(i;
        0: Q11 1 b" yes" Shape::Empty;
        1: Q11 2 b" no terminal" class_and_count!(sizes);
        2: Q11 3 b" no dependence" Shape::Empty;
        3: Q11 4 b" no cycle" one!(1, sizes.reactions);
        4: Q11 7 b" open rests" one!(7, 7u32);
    )
}

fn confluence_head<'a>(i: u32, sizes: &Sizes<'a>) -> Option<Form<'a>>
    requires { AreSizes sizes.now }
    ensures { IsNthHead (heads Q12 (sizes_of sizes.now)) i result }
{
    forms!(i;
        0: Q12 1 b" yes" Shape::Empty;
        1: Q12 2 b" none regular" Shape::Empty;
        2: Q12 3 b" none zero" Shape::Empty;
        3: Q12 4 b" none plane" Shape::TwoOf(sizes.complexes);
        4: Q12 5 b" open wide" wide!(4, sizes.complexes, sizes.species + sizes.class_reactions.len() as u32);
        5: Q12 7 b" open rests" one!(11, 11u32);
    )
}

// The open heads after the first of them.
fn signal_open_head<'a>(i: u32, sizes: &Sizes<'a>) -> Option<Form<'a>>
    requires sizes { AreSizes sizes.now }
    requires open { 3 < i }
    ensures { IsNthHead (heads Q13 (sizes_of sizes.now)) i result }
{
    if sizes.vector {
        return forms!(i;
            4: Q13 4 b" open wide" wide!(5, sizes.species + 1, sizes.complexes + sizes.pairs);
            5: Q13 5 b" open budget" one!(1, MAX_BUDGET);
            6: Q13 6 b" open rests" one!(12, 12u32);
        );
    }
    forms!(i;
        4: Q13 5 b" open budget" one!(1, MAX_BUDGET);
        5: Q13 6 b" open rests" one!(12, 12u32);
    )
}

fn signal_head<'a>(i: u32, sizes: &Sizes<'a>) -> Option<Form<'a>>
    requires { AreSizes sizes.now }
    ensures { IsNthHead (heads Q13 (sizes_of sizes.now)) i result }
{
    if 3 < i {
        return signal_open_head(i, sizes);
    }
    forms!(i;
        0: Q13 1 b" yes" Shape::Turn;
        1: Q13 2 b" no" Shape::Empty;
        2: Q13 3 b" none" Shape::Empty;
        3: Q13 4 b" open wide" wide!(2, sizes.reactions, sizes.species);
    )
}

fn concordance_head<'a>(i: u32, sizes: &Sizes<'a>) -> Option<Form<'a>>
    requires { AreSizes sizes.now }
    ensures { IsNthHead (heads Q14 (sizes_of sizes.now)) i result }
{
    forms!(i;
        0: Q14 1 b" yes" Shape::Empty;
        1: Q14 2 b" no" Shape::Empty;
        2: Q14 3 b" open wide" wide!(2, sizes.reactions, sizes.species);
        3: Q14 4 b" open budget" one!(1, MAX_BUDGET);
    )
}

fn strong_concordance_head<'a>(i: u32, sizes: &Sizes<'a>) -> Option<Form<'a>>
    requires { AreSizes sizes.now }
    ensures { IsNthHead (heads Q15 (sizes_of sizes.now)) i result }
{
    forms!(i;
        0: Q15 1 b" yes" Shape::Empty;
        1: Q15 2 b" no" Shape::Empty;
        2: Q15 3 b" open wide" wide!(2, sizes.reactions, sizes.species);
        3: Q15 4 b" open budget" one!(1, MAX_BUDGET);
    )
}

/// The form of this number, from 0, of the head of a question.
pub(crate) fn head<'a>(question: u32, i: u32, sizes: &Sizes<'a>) -> Option<Form<'a>>
    requires sizes { AreSizes sizes.now }
    requires some { 1 ≤ question }
    requires known { question ≤ 15 }
    ensures { IsNthHead (heads (question_of question) (sizes_of sizes.now)) i result }
{
    match question {
        1 => linkage_head(i, sizes),
        2 => strong_head(i, sizes),
        3 => reversible_head(i, sizes),
        4 => weak_head(i, sizes),
        5 => rank_head(i, sizes),
        6 => deficiency_head(i, sizes),
        7 => dependence_head(i, sizes),
        8 => conservation_head(i, sizes),
        9 => zero_theorem_head(i, sizes),
        10 => one_theorem_head(i, sizes),
        11 => regular_head(i, sizes),
        12 => confluence_head(i, sizes),
        13 => signal_head(i, sizes),
        14 => concordance_head(i, sizes),
        15 => strong_concordance_head(i, sizes),
        _ => unreachable!(),
    }
}
