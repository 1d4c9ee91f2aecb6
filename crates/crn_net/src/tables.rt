ghost use Rattle.std.specs.Prelude.{◌≡◌, ◌≤◌, ◌<◌, ◌==◌, ◌&&◌, IsTrue, length, take, map, replicate, slice_index_or, pos, [], OnErr, IfOk};
ghost use Rattle.std.specs.List.{AllByRecursion};
ghost use Rattle.crn_vec.specs.Lists.{AreDistinct};
ghost use Rattle.crn_vec.specs.Network.{IsAmount, JoinsTwo, minus};
ghost use Rattle.crn_net.specs.Terms.{side_of, statement_of, IsSide};
ghost use Rattle.crn_net.specs.Views.{vectors_of};
ghost use Rattle.crn_net.specs.Inner.Steps.{AreNames, AreSides, AreTables, AreZeros, NotesName, NotesSide, NotesBoth, TellsApart, IsCrowded, NotesSides, NotesRow, BuildGives, difference_of};

use crate::buckets::mark_of;
use crate::fault::NetFault;
use crate::guesses::{Guesses, TableGuesses};
use crate::name::{Name, Names};
use crate::reactions::Reactions;
use crate::row::{Amounts, Complexes, Row};
use crate::same::are_same;
use crate::side_sums::{name_of, says_same};
use crate::term::Term;
use crn_vec::{MAX_COMPLEXES, MAX_NAME, MAX_SPECIES, NoMemory};
use std::alloc::Global;

// Whether a name is at a place.
fn is_name_at(names: &Names, place: usize, name: &[u8]) -> bool
    ensures { let is_there = slice_index_or names.now.keys place [] ≡ name.now in
        IsTrue result → (place < length names.now.keys) × is_there }
{
    place < names.len() && are_same(names.as_slice()[place].as_slice(), name)
}

// The place of a name, which is added if it is new. A name above the limit is added too, and the answer is an error.
fn add_name(names: &mut Names, name: &[u8]) -> Result<usize, NetFault>
    requires few { length names.old.keys ≤ MAX_SPECIES }
    requires short { length name.now ≤ MAX_NAME }
    ensures notes { NotesName names.old.keys name.now result names.new.keys }
    ensures same { take (length names.old.keys) names.new.keys ≡ names.old.keys }
{
    let (place, _) = names.insert_full(Name::new(name))?;
    if place >= MAX_SPECIES {
        return Err(NetFault::TooManySpecies);
    }
    Ok(place)
}

// The same, if the place may have been guessed.
fn note_name(names: &mut Names, guesses: &mut Guesses, name: &[u8]) -> Result<usize, NetFault>
    requires few { length names.old.keys ≤ MAX_SPECIES }
    requires short { length name.now ≤ MAX_NAME }
    ensures notes { NotesName names.old.keys name.now result names.new.keys }
    ensures same { take (length names.old.keys) names.new.keys ≡ names.old.keys }
{
    let mark = mark_of(name);
    let guess = guesses.place(mark);
    if is_name_at(names, guess, name) {
        return Ok(guess);
    }
    let place = add_name(names, name)?;
    guesses.put(mark, place);
    Ok(place)
}

// The same, if the name may follow the one that was noted before, as in a text that lists species in their order.
fn note_next(
    names: &mut Names,
    guesses: &mut Guesses,
    next: usize,
    name: &[u8],
) -> Result<usize, NetFault>
    requires few { length names.old.keys ≤ MAX_SPECIES }
    requires short { length name.now ≤ MAX_NAME }
    ensures notes { NotesName names.old.keys name.now result names.new.keys }
    ensures same { take (length names.old.keys) names.new.keys ≡ names.old.keys }
{
    if is_name_at(names, next, name) {
        return Ok(next);
    }
    note_name(names, guesses, name)
}

// The amounts of both sides of a statement.
pub(crate) type RowPair = (Amounts, Amounts);

// Adds the amounts of a side to the row, and its new names to the names. Each term's name is looked up once.
fn note_side(
    names: &mut Names,
    guesses: &mut Guesses,
    row: &mut Amounts,
    text: &[u8],
    side: &[Term],
) -> Result<(), NetFault>
    requires distinct { AreDistinct names.old.keys }
    requires few { length names.old.keys ≤ MAX_SPECIES }
    requires zeros { row.old ≡ replicate MAX_SPECIES (pos 0) }
    requires side { IsSide text.now side.now }
    ensures notes { NotesSide names.old.keys (side_of text.now side.now)
        result names.new.keys row.new }
    ensures same { take (length names.old.keys) names.new.keys ≡ names.old.keys }
{
    // The first name follows none: no name is at this place.
    let mut next = MAX_SPECIES;
    for term in side {
        let place = note_next(names, guesses, next, name_of(text, term))?;
        row.add(place, term.count);
        next = place.wrapping_add(1);
    }
    Ok(())
}

// Adds the amounts of both sides to their rows, and their new names to the names, the left side first.
fn note_both(
    names: &mut Names,
    guesses: &mut Guesses,
    rows: &mut RowPair,
    text: &[u8],
    left: &[Term],
    right: &[Term],
) -> Result<(), NetFault>
    requires names { AreNames names.old.keys }
    requires zeros { AreZeros rows.old }
    requires sides { AreSides text.now left.now right.now }
    ensures notes { let statement = statement_of text.now left.now right.now in
        NotesBoth names.old.keys statement result names.new.keys rows.new }
    ensures same { take (length names.old.keys) names.new.keys ≡ names.old.keys }
{
    note_side(names, guesses, &mut rows.0, text, left)?;
    note_side(names, guesses, &mut rows.1, text, right)
}

// An error if both rows are the same.
fn tell_apart(rows: &RowPair) -> Result<(), NetFault>
    ensures { TellsApart rows.now result }
{
    if rows.0 == rows.1 {
        return Err(NetFault::SelfReaction);
    }
    Ok(())
}

// Why a statement with too many species is refused. Equal sides are reported first.
fn crowded_fault(alloc: Global, text: &[u8], left: &[Term], right: &[Term]) -> NetFault
    requires { AreSides text.now left.now right.now }
    ensures { IsCrowded (statement_of text.now left.now right.now) result }
{
    match says_same(alloc, text, left, right) {
        Ok(true) => NetFault::SelfReaction,
        Ok(false) => NetFault::TooManySpecies,
        Err(_) => NetFault::NoMemory,
    }
}

// Adds the names and amounts of both sides. An error if they are the same complex, or have too many names.
fn note_sides(
    names: &mut Names,
    guesses: &mut Guesses,
    rows: &mut RowPair,
    text: &[u8],
    left: &[Term],
    right: &[Term],
) -> Result<(), NetFault>
    requires names { AreNames names.old.keys }
    requires zeros { AreZeros rows.old }
    requires sides { AreSides text.now left.now right.now }
    ensures notes { let statement = statement_of text.now left.now right.now in
        NotesSides names.old.keys statement result names.new.keys rows.new }
    ensures same { take (length names.old.keys) names.new.keys ≡ names.old.keys }
{
    match note_both(names, guesses, rows, text, left, right) {
        Ok(()) => tell_apart(rows),
        Err(NetFault::TooManySpecies) => Err(crowded_fault(*names.allocator(), text, left, right)),
        Err(fault) => Err(fault),
    }
}

// The place of a row, which is added if it is new.
fn add_row(rows: &mut Complexes, row: Amounts) -> Result<usize, NetFault>
    requires few { length rows.old.keys ≤ MAX_COMPLEXES }
    ensures notes { NotesRow rows.old.keys row result rows.new.keys }
    ensures same { take (length rows.old.keys) rows.new.keys ≡ rows.old.keys }
{
    if let Some(place) = rows.get_index_of(&row) {
        return Ok(place);
    }
    if rows.len() >= MAX_COMPLEXES {
        return Err(NetFault::TooManyComplexes);
    }
    let place = rows.len();
    let _ = rows.insert(row)?;
    Ok(place)
}

// Whether a row is at a place.
fn is_row_at(rows: &Complexes, place: usize, row: &Amounts) -> bool
    ensures { let is_there = slice_index_or rows.now.keys place row.now ≡ row.now in
        IsTrue result → (place < length rows.now.keys) × is_there }
{
    place < rows.len() && rows.as_slice()[place] == *row
}

// The same, if the place may have been guessed.
fn note_row(rows: &mut Complexes, guesses: &mut Guesses, row: Amounts) -> Result<usize, NetFault>
    requires few { length rows.old.keys ≤ MAX_COMPLEXES }
    ensures notes { NotesRow rows.old.keys row result rows.new.keys }
    ensures same { take (length rows.old.keys) rows.new.keys ≡ rows.old.keys }
{
    let mark = row.mark();
    let guess = guesses.place(mark);
    if is_row_at(rows, guess, &row) {
        return Ok(guess);
    }
    let place = add_row(rows, row)?;
    guesses.put(mark, place);
    Ok(place)
}

// Adds the reaction of a statement to the tables. After an error there may be more names and rows, but the reactions
// are as before.
pub(crate) fn build(
    names: &mut Names,
    rows: &mut Complexes,
    reactions: &mut Reactions,
    guesses: &mut TableGuesses,
    text: &[u8],
    left: &[Term],
    right: &[Term],
) -> Result<(), NetFault>
    requires tables { AreTables names.old.keys rows.old.keys reactions.old }
    requires sides { AreSides text.now left.now right.now }
    ensures gives { let statement = statement_of text.now left.now right.now in
        BuildGives names.old.keys rows.old.keys reactions.old statement
        result names.new.keys rows.new.keys reactions.new }
    ensures same_names { take (length names.old.keys) names.new.keys ≡ names.old.keys }
    ensures same_rows { take (length rows.old.keys) rows.new.keys ≡ rows.old.keys }
    ensures same_reactions { OnErr result (reactions.new ≡ reactions.old) }
{
    let mut sides = (Amounts::zeros(), Amounts::zeros());
    note_sides(names, &mut guesses.names, &mut sides, text, left, right)?;
    let (left_row, right_row) = sides;
    let reactant = note_row(rows, &mut guesses.rows, left_row)?;
    let product = note_row(rows, &mut guesses.rows, right_row)?;
    reactions.note((reactant, product))
}

// The rows in numbers as large as a network's vectors have them, right at the places of the species. Each is put where it
// stays, as moving a row takes long.
pub(crate) fn full_rows(
    alloc: Global,
    rows: &[Amounts],
    species: usize,
) -> Result<Vec<Row>, NoMemory>
    requires { species ≤ MAX_SPECIES }
    ensures { IfOk result (λ made. vectors_of species made.items ≡ vectors_of species rows.now) }
{
    let mut made: Vec<Row> = Vec::with_capacity(alloc, rows.len())?;
    for c in 0..rows.len() {
        made.push([0; MAX_SPECIES])?;
        rows[c].put_row(species, &mut made[c]);
    }
    Ok(made)
}

// Puts one row minus another, entry by entry, at the places of the species.
fn put_difference(row: &mut Row, product: &Row, reactant: &Row, species: usize)
    requires species { species ≤ MAX_SPECIES }
    requires product { AllByRecursion IsAmount (take species product.now) }
    requires reactant { AllByRecursion IsAmount (take species reactant.now) }
    ensures { take species row.new
        ≡ minus (take species product.now) (take species reactant.now) }
{
    for s in 0..species {
        row[s] = product[s] - reactant[s];
    }
}

// For each reaction, the row of its product minus that of its reactant, at the places of the species.
pub(crate) fn differences(
    alloc: Global,
    rows: &[Row],
    reactions: &[(usize, usize)],
    species: usize,
) -> Result<Vec<Row>, NoMemory>
    requires species { species ≤ MAX_SPECIES }
    requires amounts { AllByRecursion (λ row. AllByRecursion IsAmount row)
        (vectors_of species rows.now) }
    requires places { AllByRecursion (JoinsTwo (length rows.now)) reactions.now }
    ensures { let vector = difference_of (vectors_of species rows.now) in
        IfOk result (λ made. vectors_of species made.items ≡ map vector reactions.now) }
{
    let mut made: Vec<Row> = Vec::with_capacity(alloc, reactions.len())?;
    for r in 0..reactions.len() {
        let (reactant, product) = reactions[r];
        made.push([0; MAX_SPECIES])?;
        put_difference(&mut made[r], &rows[product], &rows[reactant], species);
    }
    Ok(made)
}
