ghost use Rattle.std.specs.Prelude.{◌≡◌, ◌≤◌, ◌<◌, ◌+◌, ◌^◌, ◌↔◌, ℤ, pos, List, [], ◌∷◌, IsTrue, length, map, slice_index_or};
ghost use Rattle.std.specs.List.{AllByRecursion};
ghost use Rattle.crn_vec.specs.Lists.{IsAscending};
ghost use Rattle.crn_ctext.specs.Records.{Takes, Small, Several, Rising, Members, CountAndPart, TwoOf, Turn, ClassWide, AreBetween, AreRising, AreOf, IsNarrow};
ghost use Rattle.crn_vec.specs.declared.limits.TheConstants.{MAX_SPECIES, MAX_REACTIONS};
ghost use Rattle.crn_ctext.specs.Kinds.{small, just};
ghost use Rattle.crn_ctext.specs.Inner.Line.{capped};
ghost use Rattle.crn_ctext.specs.Inner.Shapes.{fields_of, has_free, HasBounds, AreMembers, TakesFirst, IsPlaceIn, IsJudged};

use crn_io::MAX_NUMBERS;
use crn_vec::WIDE_SOLUTION;

/// The numbers from the least to the greatest.
#[derive(Clone, Copy)]
pub(crate) struct Range {
    pub(crate) least: i128,
    pub(crate) greatest: i128,
}

/// Which numbers a record has.
#[derive(Clone, Copy)]
pub(crate) enum Shape<'a> {
    Empty,
    /// This many of a range.
    Small {
        count: u32,
        range: Range,
    },
    /// From 2 numbers on, each from 1 to this.
    Walk(u32),
    /// This many free numbers.
    Free(u32),
    /// Free numbers of a shared list.
    Vector,
    /// This many of these, ascending.
    Members {
        count: u32,
        members: &'a [u32],
    },
    /// A number from 1 to this, and one from 1 to that number.
    CountAndPart(u32),
    /// Two different numbers from 1 to this.
    TwoOf(u32),
    /// 1 or -1.
    Turn,
    /// A linkage class, and a number from 2 to that of the complexes.
    ClassAndCount {
        classes: u32,
        complexes: u32,
    },
    /// A reaction, and a mark of each complex.
    Side {
        reaction: u32,
        complexes: u32,
    },
    /// A system, no class, a coordinate and a basis.
    Wide {
        system: u32,
        columns: u32,
        coordinates: u32,
    },
    /// The systems of classes: a class with its number of reactions, a coordinate and a basis.
    ClassWide {
        species: u32,
        reactions: &'a [u32],
    },
}

/// How the numbers of a line fit a shape.
#[derive(Clone, Copy)]
pub(crate) enum Fit {
    Misfit,
    /// They fit, but for free numbers that are too great.
    TooWide,
    Fits,
}

// Whether each number is in the range.
fn are_between(numbers: &[i128], range: &Range) -> bool
    ensures { IsTrue result ↔ AreBetween range.now.least range.now.greatest numbers.now }
{
    for number in numbers {
        if *number < range.least || range.greatest < *number {
            return false;
        }
    }
    true
}

// Whether each number is a number of a certificate.
pub(crate) fn are_narrow(numbers: &[i128]) -> bool
    ensures { IsTrue result ↔ AllByRecursion IsNarrow numbers.now }
{
    for number in numbers {
        if WIDE_SOLUTION <= number.unsigned_abs() {
            return false;
        }
    }
    true
}

// Whether the numbers are ascending, from 1 to the greatest.
fn are_rising(numbers: &[i128], greatest: u32) -> bool
    ensures { IsTrue result ↔ AreRising greatest numbers.now }
{
    let most = i128::from(greatest);
    let mut low: i128 = 0;
    for number in numbers {
        if *number <= low {
            return false;
        }
        if most < *number {
            return false;
        }
        low = *number;
    }
    true
}

// Whether the number at this place is this one.
fn is_at(numbers: &[i128], place: usize, number: u32) -> bool
    ensures { IsTrue result
        ↔ (place < length numbers.now) × (slice_index_or numbers.now place (pos 0) ≡ pos number) }
{
    place < numbers.len() && numbers[place] == i128::from(number)
}

// Whether the numbers are ascending members of the list.
fn are_members(numbers: &[i128], members: &[u32]) -> bool
    requires { IsAscending members.now }
    ensures { IsTrue result ↔ AreMembers members.now numbers.now }
{
    let mut met: usize = 0;
    for member in members {
        if is_at(numbers, met, *member) {
            met += 1;
        }
    }
    met == numbers.len()
}

pub(crate) fn is_small(numbers: &[i128], count: u32, range: &Range) -> bool
    ensures { IsTrue result
        ↔ Takes (Small count range.now.least range.now.greatest) numbers.now }
{
    numbers.len() == count as usize && are_between(numbers, range)
}

fn are_naturals(numbers: &[i128], count: u32, least: u32, greatest: u32) -> bool
    ensures { IsTrue result ↔ Takes (small count least greatest) numbers.now }
{
    let range = Range {
        least: i128::from(least),
        greatest: i128::from(greatest),
    };
    is_small(numbers, count, &range)
}

fn is_walk(numbers: &[i128], complexes: u32) -> bool
    ensures { IsTrue result ↔ Takes (Several 2 complexes (pos 1) (pos complexes)) numbers.now }
{
    let range = Range {
        least: 1,
        greatest: i128::from(complexes),
    };
    2 <= numbers.len() && numbers.len() <= complexes as usize && are_between(numbers, &range)
}

fn is_base(numbers: &[i128], count: u32, members: &[u32]) -> bool
    requires { IsAscending members.now }
    ensures { IsTrue result ↔ Takes (Members count members.now) numbers.now }
{
    numbers.len() == count as usize && are_members(numbers, members)
}

pub(crate) fn is_basis(numbers: &[i128], count: u32, greatest: u32) -> bool
    ensures { IsTrue result ↔ Takes (Rising count greatest) numbers.now }
{
    numbers.len() == count as usize && are_rising(numbers, greatest)
}

fn is_count_and_part(numbers: &[i128], greatest: u32) -> bool
    ensures { IsTrue result ↔ Takes (CountAndPart greatest) numbers.now }
{
    match numbers {
        [count, part] => 1 <= *part && *part <= *count && *count <= i128::from(greatest),
        _ => false,
    }
}

fn are_two_of(numbers: &[i128], greatest: u32) -> bool
    ensures { IsTrue result ↔ Takes (TwoOf greatest) numbers.now }
{
    let range = Range {
        least: 1,
        greatest: i128::from(greatest),
    };
    match numbers {
        [first, second] => *first != *second && are_between(numbers, &range),
        _ => false,
    }
}

fn is_turn(numbers: &[i128]) -> bool
    ensures { IsTrue result ↔ Takes Turn numbers.now }
{
    match numbers {
        [turn] => *turn == 1 || *turn == -1,
        _ => false,
    }
}

// The numbers after the first one, if that is of the range.
fn first_in(numbers: &[i128], least: u32, greatest: u32) -> Option<&[i128]>
    ensures { TakesFirst numbers.now least greatest result }
{
    if numbers.is_empty() {
        return None;
    }
    if numbers[0] < i128::from(least) {
        return None;
    }
    if i128::from(greatest) < numbers[0] {
        return None;
    }
    let (_, rest) = numbers.split_at(1);
    Some(rest)
}

fn is_class_and_count(numbers: &[i128], classes: u32, complexes: u32) -> bool
    ensures { IsTrue result
        ↔ AreOf Takes (small 1 1 classes ∷ small 1 2 complexes ∷ []) numbers.now }
{
    match first_in(numbers, 1, classes) {
        None => false,
        Some(count) => are_naturals(count, 1, 2, complexes),
    }
}

fn is_side(numbers: &[i128], reaction: u32, complexes: u32) -> bool
    ensures { IsTrue result
        ↔ AreOf Takes (just reaction ∷ small complexes 0 1 ∷ []) numbers.now }
{
    match first_in(numbers, reaction, reaction) {
        None => false,
        Some(marks) => are_naturals(marks, complexes, 0, 1),
    }
}

// A coordinate and a basis.
fn is_indexed(numbers: &[i128], columns: u32, coordinates: u32) -> bool
    ensures { IsTrue result
        ↔ AreOf Takes (small 1 1 coordinates ∷ Rising columns coordinates ∷ []) numbers.now }
{
    match first_in(numbers, 1, coordinates) {
        None => false,
        Some(basis) => is_basis(basis, columns, coordinates),
    }
}

// The place, from 0, that the first number is of, if there are this many.
fn place_in(numbers: &[i128], count: usize) -> Option<usize>
    requires { 0 < length numbers.now }
    ensures { IsPlaceIn numbers.now count result }
{
    if numbers[0] < 1 {
        return None;
    }
    if (count as i128) < numbers[0] {
        return None;
    }
    Some(numbers[0] as usize - 1)
}

// The systems of classes: a class, a coordinate and a basis.
fn is_class_wide(numbers: &[i128], species: u32, reactions: &[u32]) -> bool
    requires each { AllByRecursion (λ r. r ≤ MAX_REACTIONS) reactions.now }
    requires species { species ≤ MAX_SPECIES }
    ensures { IsTrue result ↔ Takes (ClassWide species reactions.now) numbers.now }
{
    if numbers.is_empty() {
        return false;
    }
    match place_in(numbers, reactions.len()) {
        None => false,
        Some(class) => {
            let (_, rest) = numbers.split_at(1);
            is_indexed(rest, species, species + reactions[class])
        }
    }
}

// No class, a coordinate and a basis.
fn is_classless(numbers: &[i128], columns: u32, coordinates: u32) -> bool
    ensures { IsTrue result ↔ AreOf Takes
        (just 0 ∷ small 1 1 coordinates ∷ Rising columns coordinates ∷ []) numbers.now }
{
    match first_in(numbers, 0, 0) {
        None => false,
        Some(rest) => is_indexed(rest, columns, coordinates),
    }
}

fn is_wide(numbers: &[i128], system: u32, columns: u32, coordinates: u32) -> bool
    ensures { IsTrue result ↔ AreOf Takes
        (just system ∷ just 0 ∷ small 1 1 coordinates ∷ Rising columns coordinates ∷ [])
        numbers.now }
{
    match first_in(numbers, system, system) {
        None => false,
        Some(rest) => is_classless(rest, columns, coordinates),
    }
}

fn is_system_of_class(numbers: &[i128], species: u32, reactions: &[u32]) -> bool
    requires each { AllByRecursion (λ r. r ≤ MAX_REACTIONS) reactions.now }
    requires species { species ≤ MAX_SPECIES }
    ensures { IsTrue result
        ↔ AreOf Takes (just 3 ∷ ClassWide species reactions.now ∷ []) numbers.now }
{
    match first_in(numbers, 3, 3) {
        None => false,
        Some(rest) => is_class_wide(rest, species, reactions),
    }
}

// Whether the numbers have the shape, but for the size of free ones.
fn takes(shape: &Shape, numbers: &[i128]) -> bool
    requires { HasBounds shape.now }
    ensures { IsTrue result ↔ AreOf Takes (fields_of shape.now) numbers.now }
{
    match shape {
        Shape::Empty => numbers.is_empty(),
        Shape::Small { count, range } => is_small(numbers, *count, range),
        Shape::Walk(complexes) => is_walk(numbers, *complexes),
        Shape::Free(count) => numbers.len() == *count as usize,
        Shape::Vector => 1 <= numbers.len() && numbers.len() <= MAX_NUMBERS,
        Shape::Members { count, members } => is_base(numbers, *count, members),
        Shape::CountAndPart(greatest) => is_count_and_part(numbers, *greatest),
        Shape::TwoOf(greatest) => are_two_of(numbers, *greatest),
        Shape::Turn => is_turn(numbers),
        Shape::ClassAndCount { classes, complexes } => {
            is_class_and_count(numbers, *classes, *complexes)
        }
        Shape::Side {
            reaction,
            complexes,
        } => is_side(numbers, *reaction, *complexes),
        Shape::Wide {
            system,
            columns,
            coordinates,
        } => is_wide(numbers, *system, *columns, *coordinates),
        Shape::ClassWide { species, reactions } => is_system_of_class(numbers, *species, reactions),
    }
}

// Whether the numbers of the shape are free.
fn is_free(shape: &Shape) -> bool
    ensures { result ≡ has_free shape.now }
{
    matches!(shape, Shape::Free(_) | Shape::Vector)
}

/// How the numbers of a line, as they are held, fit a shape.
pub(crate) fn judge(shape: &Shape, numbers: &[i128]) -> Fit
    requires { HasBounds shape.now }
    ensures { (zs : List ℤ) → numbers.now ≡ map capped zs
        → IsJudged result (fields_of shape.now) zs numbers.now }
{
    if !takes(shape, numbers) {
        return Fit::Misfit;
    }
    if !is_free(shape) {
        return Fit::Fits;
    }
    if are_narrow(numbers) {
        return Fit::Fits;
    }
    Fit::TooWide
}
