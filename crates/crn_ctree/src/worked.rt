ghost use Rattle.std.specs.Prelude.{◌≡◌, ◌≢◌, ◌≤◌, ◌<◌, ◌-◌, ◌⊎◌, ◌↔◌, true, [], length, map, slice_index_or, IfOk, IsTrue};
ghost use Rattle.crn_vec.specs.Concordance.{column_kind as kind_of_column, sign};
ghost use Rattle.crn_vec.specs.Elementary.{width};
ghost use Rattle.crn_vec.specs.Systems.{IsCut, kind_at};
ghost use Rattle.crn_cert.specs.Nodes.{Fits};
ghost use Rattle.crn_cert.specs.Ranges.{AreFree};
ghost use Rattle.crn_ctree.specs.Gives.{is_cut};
ghost use Rattle.crn_ctree.specs.Problem.{problem_of, table_of};
ghost use Rattle.crn_ctree.specs.Shared.{IsPlaceIn, IsShared, place_of};
ghost use Rattle.crn_ctree.specs.Inner.Kinds.{cut_by, kinds_of, matrix_by, matrix_of, part_of};
ghost use Rattle.crn_ctree.specs.Inner.Spots.{AllWeigh, AreBelow, SomeSigned, column_numbers, columns_of, row_spots, rows_by, shelf_rows, spots_from};

use crate::cut::{Part, System, columns, put_weights, rows, system_of};
use crate::kinds::{kind, opposite_kind};
use crate::problem::{InfluenceTable, Problem};
use crate::shared::{SharedCut, SharedTable};
use crate::signal::put_signs;
use crate::spots::{Spot, Spots, spots_kind};
use crn_net::Network;
use crn_vec::{Ints, Kind, MAX_COORDINATES, MAX_SPECIES, NoMemory, Sign, is_asked, may_weigh};
use std::alloc::Global;
use std::marker::Model;

/// The coordinates that the vectors of a table weigh, and the places of a table's columns, worked out once.
#[derive(Drop)]
pub(crate) struct Worked<'a> {
    net: &'a Network,
    problem: Problem<'a>,
    table: &'a SharedTable,
    columns: Vec<Spots>,
    reactions: Vec<Spots>,
    shelves: Vec<Spots>,
}

impl<'a> Model for Worked<'a> {
    ghost use Rattle.std.specs.Prelude.{◌≡◌};
    ghost use Rattle.crn_vec.specs.NetSystems.{reaction_system};
    ghost use Rattle.crn_ctree.specs.Known.{KeptCuts};
    ghost use Rattle.crn_ctree.specs.Inner.Spots.{columns_of, rows_by, shelf_rows};

    ghost Value = { KeptCuts };

    ghost view = { λ s. record { net = s.net.now; problem = s.problem; table = s.table.now } };

    ghost invariant = { λ s. (s.columns.items ≡ columns_of s.net.now s.problem)
        × (s.reactions.items ≡ rows_by (reaction_system s.net.now) s.table.now)
        × (s.shelves.items ≡ shelf_rows s.problem s.table.now) };
}

/// A cut of a sign problem, worked out once: its multipliers, and the coordinates that they weigh.
#[derive(Drop)]
pub(crate) struct WorkedCut<'a> {
    net: &'a Network,
    problem: Problem<'a>,
    part: Part,
    numbers: Ints,
    row: Spots,
}

impl<'a> Model for WorkedCut<'a> {
    ghost use Rattle.std.specs.Prelude.{◌≡◌, length};
    ghost use Rattle.crn_ctree.specs.Known.{KeptCut};
    ghost use Rattle.crn_ctree.specs.Inner.Kinds.{cut_by, matrix_of};
    ghost use Rattle.crn_ctree.specs.Inner.Spots.{row_spots};

    ghost Value = { KeptCut };

    ghost view = { λ s. record {
      net = s.net.now;
      problem = s.problem;
      said = cut_by s.part s.numbers.list;
    } };

    ghost invariant = { λ s. let a = matrix_of s.net.now s.problem s.part in
        (length s.numbers.list ≡ length a.rows) × (s.row ≡ row_spots a s.numbers.list) };
}

// The coordinates of a system that multipliers weigh.
fn row_of(alloc: Global, net: &Network, system: System, u: &[i128]) -> Result<Spots, NoMemory>
    requires { AreFree (length (matrix_by net.now system).rows) u.now }
    ensures { IfOk result (λ made. made ≡ row_spots (matrix_by net.now system.entry) u.now) }
{
    let mut room = [Sign::Zero; 2 * MAX_COORDINATES];
    let (signs, _) = room.split_at_mut(columns(net, system) + rows(net, system));
    put_weights(net, system, u, signs);
    Spots::of(alloc, signs)
}

// The same, and none if they are not as many as its rows.
fn row_by(alloc: Global, net: &Network, system: System, u: &[i128]) -> Result<Spots, NoMemory>
    requires { IsShared u.now }
    ensures { IfOk result (λ made. made ≡ row_spots (matrix_by net.now system.entry) u.now) }
{
    if u.len() != rows(net, system) {
        return Spots::of(alloc, &[]);
    }
    row_of(alloc, net, system, u)
}

// The coordinates of a system that each vector of a table weighs.
fn rows_by(
    alloc: Global,
    net: &Network,
    system: System,
    table: &SharedTable,
) -> Result<Vec<Spots>, NoMemory>
    ensures { IfOk result (λ made.
        made.items ≡ rows_by (matrix_by net.now system.entry) table.now) }
{
    let mut made = Vec::with_capacity(alloc, table.len())?;
    for i in 0..table.len() {
        made.push(row_by(alloc, net, system, table.at(i))?)?;
    }
    Ok(made)
}

// The numbers whose signs decide the kind of a reaction's column: the amounts of its reactant, or its vector, which has
// the signs opposite to the strong table.
fn column_numbers<'n>(net: &'n Network, table: InfluenceTable, r: usize) -> &'n [i128]
    requires { r < length net.now.reactions }
    ensures value { result.now
        ≡ column_numbers net.now table (slice_index_or net.now.reactions r (0, 0)) }
    ensures width { length result.now ≡ length net.now.names }
{
    match table {
        InfluenceTable::Plain => net.vector(net.reactant(r)),
        InfluenceTable::Strong => net.reaction_vector(r),
    }
}

// The places at which they are not zero.
fn column_by(
    alloc: Global,
    net: &Network,
    table: InfluenceTable,
    r: usize,
) -> Result<Spots, NoMemory>
    requires { r < length net.now.reactions }
    ensures { IfOk result (λ made. made ≡ spots_from 0
        (map sign (column_numbers net.now table (slice_index_or net.now.reactions r (0, 0))))) }
{
    let mut room = [Sign::Zero; MAX_SPECIES];
    let (signs, _) = room.split_at_mut(net.species());
    put_signs(column_numbers(net, table, r), signs);
    Spots::of(alloc, signs)
}

// Those of each reaction.
fn columns_by(alloc: Global, net: &Network, table: InfluenceTable) -> Result<Vec<Spots>, NoMemory>
    ensures { IfOk result (λ made.
        made.items ≡ columns_of net.now (Problem.Concordance table)) }
{
    let mut made = Vec::with_capacity(alloc, net.reactions())?;
    for r in 0..net.reactions() {
        made.push(column_by(alloc, net, table, r)?)?;
    }
    Ok(made)
}

impl<'a> Worked<'a> {
    /// Works them out, with memory for each coordinate that is weighed and for each place of a column.
    pub(crate) fn new(
        alloc: Global,
        net: &'a Network,
        problem: Problem<'a>,
        table: &'a SharedTable,
    ) -> Result<Worked<'a>, NoMemory>
        ensures net { IfOk result (λ made. made.net ≡ net.now) }
        ensures problem { IfOk result (λ made. made.problem ≡ problem.entry) }
        ensures table { IfOk result (λ made. made.table ≡ table.now) }
    {
        let reactions = rows_by(alloc, net, System::Reactions, table)?;
        match problem {
            Problem::Concordance(influence) => Ok(Worked {
                net,
                problem,
                table,
                columns: columns_by(alloc, net, influence)?,
                reactions,
                shelves: Vec::new(alloc),
            }),
            Problem::Signals(shape) => Ok(Worked {
                net,
                problem,
                table,
                columns: Vec::new(alloc),
                reactions,
                shelves: rows_by(alloc, net, System::Shelves(shape), table)?,
            }),
        }
    }

    /// The number of vectors.
    pub(crate) fn len(&self) -> usize
        ensures { result ≡ length self.now.table }
    {
        self.table.len()
    }

    /// Whether the vector that a cut names has as many numbers as the part has rows.
    pub(crate) fn has_shape(&self, cut: SharedCut) -> bool
        requires { IsPlaceIn self.now.table cut }
        ensures { IsTrue result
            ↔ (length (slice_index_or self.now.table (place_of cut - 1) [])
            ≡ length (matrix_of self.now.net self.now.problem (part_of cut)).rows) }
    {
        let numbers = self.table.get(cut.place());
        numbers.len() == rows(self.net, system_of(self.problem, cut.part()))
    }

    // The coordinates that a cut weighs.
    fn row(&self, cut: SharedCut) -> &[Spot]
        requires { IsPlaceIn self.now.table cut }
        ensures { result.now
            ≡ row_spots (matrix_of self.now.net self.now.problem (part_of cut))
            (slice_index_or self.now.table (place_of cut - 1) []) }
    {
        let i = cut.place() as usize - 1;
        match self.problem {
            Problem::Concordance(_) => self.reactions[i].as_slice(),
            Problem::Signals(_) => match cut.part() {
                Part::A => self.shelves[i].as_slice(),
                Part::B => self.reactions[i].as_slice(),
            },
        }
    }

    // The kind of a reaction's column at a prefix.
    fn column_kind(&self, table: InfluenceTable, prefix: &[Sign], r: usize) -> Kind
        requires problem { self.now.problem ≡ Problem.Concordance table }
        requires reaction { r < length self.now.net.reactions }
        ensures { result
            ≡ kind_of_column (slice_index_or (table_of self.now.net table) r []) prefix.now }
    {
        let kind = spots_kind(false, false, self.columns[r].as_slice(), prefix);
        match table {
            InfluenceTable::Plain => kind,
            InfluenceTable::Strong => opposite_kind(kind),
        }
    }

    // The kind of a coordinate of part A of a table at a prefix.
    fn table_kind(&self, table: InfluenceTable, prefix: &[Sign], k: usize) -> Kind
        requires problem { self.now.problem ≡ Problem.Concordance table }
        requires place { k < width (matrix_of self.now.net self.now.problem Part.A) }
        ensures { result
            ≡ kind_at (kinds_of self.now.net self.now.problem Part.A prefix.now) k }
    {
        if k < self.columns.len() {
            self.column_kind(table, prefix, k)
        } else {
            Kind::Zero
        }
    }

    // The kind of a coordinate of part A at a prefix.
    fn kind_a(&self, prefix: &[Sign], k: usize) -> Kind
        requires { k < width (matrix_of self.now.net self.now.problem Part.A) }
        ensures { result
            ≡ kind_at (kinds_of self.now.net self.now.problem Part.A prefix.now) k }
    {
        match self.problem {
            Problem::Concordance(table) => self.table_kind(table, prefix, k),
            Problem::Signals(_) => kind(self.net, self.problem, Part::A, prefix, k),
        }
    }

    // The kind of a coordinate of a part at a prefix.
    fn kind(&self, part: Part, prefix: &[Sign], k: usize) -> Kind
        requires { k < width (matrix_of self.now.net self.now.problem part) }
        ensures { result ≡ kind_at (kinds_of self.now.net self.now.problem part prefix.now) k }
    {
        match part {
            Part::A => self.kind_a(prefix, k),
            Part::B => kind(self.net, self.problem, Part::B, prefix, k),
        }
    }

    // Whether each of these coordinates may be weighed, and some coordinate that is has to be positive or negative.
    fn rule(&self, part: Part, prefix: &[Sign], spots: &[Spot], some: bool) -> bool
        requires { AreBelow (width (matrix_of self.now.net self.now.problem part)) spots.now }
        ensures { let kinds = kinds_of self.now.net self.now.problem part prefix.now in
            IsTrue result
            ↔ (AllWeigh kinds spots.now × (IsTrue some ⊎ SomeSigned kinds spots.now)) }
    {
        match spots {
            [] => some,
            [spot, spots @ ..] => {
                let kind = self.kind(part, prefix, spot.place);
                if !may_weigh(kind, spot.sign) {
                    return false;
                }
                self.rule(part, prefix, spots, some || is_asked(kind))
            }
        }
    }

    /// Whether the vector that a cut names rules its part of a prefix out.
    pub(crate) fn rules_out(&self, cut: SharedCut, prefix: &[Sign]) -> bool
        requires place { IsPlaceIn self.now.table cut }
        requires shape { length (slice_index_or self.now.table (place_of cut - 1) [])
            ≡ length (matrix_of self.now.net self.now.problem (part_of cut)).rows }
        ensures { let a = matrix_of self.now.net self.now.problem (part_of cut) in
            let kinds = kinds_of self.now.net self.now.problem (part_of cut) prefix.now in
            IsTrue result ↔ IsCut a kinds (slice_index_or self.now.table (place_of cut - 1) []) }
    {
        let part = cut.part();
        let _ = system_of(self.problem, part);
        self.rule(part, prefix, self.row(cut), false)
    }

    /// Works a cut of a part with these multipliers out.
    pub(crate) fn work_out(
        &self,
        alloc: Global,
        part: Part,
        u: &[i128],
    ) -> Result<WorkedCut<'a>, NoMemory>
        requires { AreFree (length (matrix_of self.now.net self.now.problem part).rows) u.now }
        ensures net { IfOk result (λ made. made.net ≡ self.now.net) }
        ensures problem { IfOk result (λ made. made.problem ≡ self.now.problem) }
        ensures said { IfOk result (λ made. made.said ≡ cut_by part u.now) }
    {
        let numbers = Ints::from_slice(alloc, u)?;
        let row = row_of(alloc, self.net, system_of(self.problem, part), u)?;
        Ok(WorkedCut {
            net: self.net,
            problem: self.problem,
            part,
            numbers,
            row,
        })
    }

    /// Whether a cut that is worked out rules its part of a prefix out.
    pub(crate) fn rules_out_by(&self, cut: &WorkedCut, prefix: &[Sign]) -> bool
        requires net { cut.now.net ≡ self.now.net }
        requires problem { cut.now.problem ≡ self.now.problem }
        ensures fits { IsTrue result
            ↔ Fits (problem_of self.now.net self.now.problem) prefix.now cut.now.said }
        ensures cut { is_cut cut.now.said ≡ true }
    {
        let part = cut.part;
        let _ = system_of(self.problem, part);
        self.rule(part, prefix, cut.row.as_slice(), false)
    }
}
