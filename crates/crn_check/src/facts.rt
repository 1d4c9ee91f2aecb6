ghost use Rattle.std.specs.Prelude.{◌≡◌, ◌≤◌, ◌<◌, ◌+◌, [], ◌∷◌, ◌++◌, length, map, IfOk, vec_len, vec_capacity};
ghost use Rattle.std.specs.List.{AllByRecursion};
ghost use Rattle.crn_cert.specs.Questions.{on};
ghost use Rattle.crn_cert.specs.Ranges.{IsFrom};
ghost use Rattle.crn_cert.specs.Verdicts.{tight, tight_gap};
ghost use Rattle.crn_check.specs.Facts.{asked, HoldsOn, HoldsNoneFrom, AreFactsOf, IsRoom};
ghost use Rattle.crn_check.specs.Inner.Facts.{DoesFit, DoesGapFit, DoesLargeFit, HoldsNoList};

use crn_cert::{Gap, Verdict, Verdicts};
use crn_net::Network;
use crn_vec::{Ints, MAX_REACTIONS, NoMemory, Nums};
use std::alloc::Global;
use std::marker::Model;

// The most verdicts, one on each question.
const QUESTIONS: usize = 15;

// An accepted verdict and the number of its question.
#[derive(Drop)]
struct Fact {
    question: u32,
    verdict: Verdict,
}

// Memory for the lists of a verdict that is not accepted yet.
#[derive(Drop)]
struct Room {
    first: Nums,
    second: Nums,
    large: Ints,
    other: Ints,
    third: Ints,
}

// Empty lists with memory for the lists of any verdict.
fn new_room(alloc: Global) -> Result<Room, NoMemory>
    ensures { IfOk result (λ room. IsRoom room) }
{
    Ok(Room {
        first: Nums::with_room(alloc, MAX_REACTIONS)?,
        second: Nums::with_room(alloc, MAX_REACTIONS)?,
        large: Ints::with_room(alloc, MAX_REACTIONS)?,
        other: Ints::with_room(alloc, MAX_REACTIONS)?,
        third: Ints::with_room(alloc, MAX_REACTIONS)?,
    })
}

// Memory for a verdict on each question.
fn new_rooms(alloc: Global) -> Result<Vec<Room>, NoMemory>
    ensures count { IfOk result (λ rooms. length rooms.items ≡ QUESTIONS) }
    ensures each { IfOk result (λ rooms. AllByRecursion IsRoom rooms.items) }
{
    let mut rooms = Vec::with_capacity(alloc, QUESTIONS)?;
    for k in 0..QUESTIONS {
        rooms.push(new_room(alloc)?)?;
    }
    Ok(rooms)
}

// The numbers in the memory of an empty list with room for them.
fn fill(mut list: Nums, values: &[u32]) -> Nums
    requires empty { list.list ≡ [] }
    requires room { length values.now ≤ list.spare }
    ensures { result ≡ record { list = values.now; spare = 0 } }
{
    for value in values {
        let _ = list.push(*value);
    }
    Nums::from_vec(list.into_vec())
}

// The same for whole numbers.
fn fill_large(mut list: Ints, values: &[i128]) -> Ints
    requires empty { list.list ≡ [] }
    requires room { length values.now ≤ list.spare }
    ensures { result ≡ record { list = values.now; spare = 0 } }
{
    for value in values {
        let _ = list.push(*value);
    }
    Ints::from_vec(list.into_vec())
}

// What leaves a question open, with its list in memory that is reserved for it.
fn keep_gap(room: Room, gap: &Gap) -> Gap
    requires room { IsRoom room }
    requires fits { DoesGapFit gap.now }
    ensures { result ≡ tight_gap gap.now }
{
    match gap {
        Gap::Wide {
            system,
            class,
            index,
            basis,
        } => Gap::Wide {
            system: *system,
            class: *class,
            index: *index,
            basis: fill(room.first, basis.as_slice()),
        },
        Gap::Budget { nodes } => Gap::Budget { nodes: *nodes },
        Gap::Rests { question } => Gap::Rests {
            question: *question,
        },
    }
}

// A verdict that holds no list.
fn copy(verdict: &Verdict) -> Verdict
    requires { HoldsNoList verdict.now }
    ensures { result ≡ tight verdict.now }
{
    match verdict {
        Verdict::YesWeak { weak } => Verdict::YesWeak { weak: *weak },
        Verdict::NoReaction { reaction } => Verdict::NoReaction {
            reaction: *reaction,
        },
        Verdict::NoNumber { number } => Verdict::NoNumber { number: *number },
        Verdict::NoTerminal { class, count } => Verdict::NoTerminal {
            class: *class,
            count: *count,
        },
        Verdict::NoClass { class, number } => Verdict::NoClass {
            class: *class,
            number: *number,
        },
        Verdict::NoSum { sum } => Verdict::NoSum { sum: *sum },
        Verdict::NoDependence => Verdict::NoDependence,
        Verdict::No => Verdict::No,
        Verdict::NotApplicable => Verdict::NotApplicable,
        Verdict::NotRegular => Verdict::NotRegular,
        Verdict::OnlyZero => Verdict::OnlyZero,
        _ => Verdict::Yes,
    }
}

// A verdict that holds no list of small numbers, with its lists in memory that is reserved for it.
fn keep_large(room: Room, verdict: &Verdict) -> Verdict
    requires room { IsRoom room }
    requires fits { DoesLargeFit verdict.now }
    ensures { result ≡ tight verdict.now }
{
    match verdict {
        Verdict::YesVec { vector } => Verdict::YesVec {
            vector: fill_large(room.large, vector.as_slice()),
        },
        Verdict::YesSignal {
            turn,
            shelves,
            mu,
            m,
            weights,
        } => Verdict::YesSignal {
            turn: *turn,
            shelves: fill_large(room.large, shelves.as_slice()),
            mu: fill_large(room.other, mu.as_slice()),
            m: *m,
            weights: fill_large(room.third, weights.as_slice()),
        },
        Verdict::NoVec { multipliers } => Verdict::NoVec {
            multipliers: fill_large(room.large, multipliers.as_slice()),
        },
        Verdict::NoPair { alpha, weights } => Verdict::NoPair {
            alpha: fill_large(room.large, alpha.as_slice()),
            weights: fill_large(room.other, weights.as_slice()),
        },
        Verdict::Plane {
            first,
            second,
            one,
            two,
        } => Verdict::Plane {
            first: *first,
            second: *second,
            one: fill_large(room.large, one.as_slice()),
            two: fill_large(room.other, two.as_slice()),
        },
        _ => copy(verdict),
    }
}

// A verdict with its lists in memory that is reserved for it.
fn keep(room: Room, verdict: &Verdict) -> Verdict
    requires room { IsRoom room }
    requires fits { DoesFit verdict.now }
    ensures { result ≡ tight verdict.now }
{
    match verdict {
        Verdict::Classes { count, label } => Verdict::Classes {
            count: *count,
            label: fill(room.first, label.as_slice()),
        },
        Verdict::Strong {
            count,
            terminal,
            label,
            exit,
        } => Verdict::Strong {
            count: *count,
            terminal: *terminal,
            label: fill(room.first, label.as_slice()),
            exit: fill(room.second, exit.as_slice()),
        },
        Verdict::Rank { rank, base } => Verdict::Rank {
            rank: *rank,
            base: fill(room.first, base.as_slice()),
        },
        Verdict::Deficiency { total, classes } => Verdict::Deficiency {
            total: *total,
            classes: fill(room.first, classes.as_slice()),
        },
        Verdict::NoCycle { reaction, walk } => Verdict::NoCycle {
            reaction: *reaction,
            walk: fill(room.first, walk.as_slice()),
        },
        Verdict::Unknown(gap) => Verdict::Unknown(keep_gap(room, gap)),
        _ => keep_large(room, verdict),
    }
}

// Adds a fact to a list that has room for it.
fn add(items: &mut Vec<Fact>, fact: Fact)
    requires few { length items.old.items < QUESTIONS }
    requires room { QUESTIONS ≤ vec_capacity items.old }
    ensures items { items.new.items ≡ items.old.items ++ fact ∷ [] }
    ensures room { QUESTIONS ≤ vec_capacity items.new }
{
    let _ = items.push(fact);
}

/// The verdicts that were accepted so far, at most one on each question. Contracts see them in order.
#[derive(Drop)]
pub struct Facts {
    items: Vec<Fact>,
    rooms: Vec<Room>,
    // The list in which the verdicts are given at the end. It is empty until then.
    given: Verdicts,
}

impl Model for Facts {
    ghost use Rattle.std.specs.Prelude.{◌≡◌, ◌≤◌, ◌+◌, [], map, length, vec_capacity};
    ghost use Rattle.std.specs.List.{AllByRecursion};
    ghost use Rattle.crn_check.specs.Facts.{KeptFacts, asked, AreInOrder, IsRoom};
    ghost use Rattle.crn_check.specs.declared.facts.TheConstants.{QUESTIONS};

    ghost Value = { KeptFacts };

    ghost view = { λ s.
        record { earlier = map (λ f. (asked f.question, f.verdict)) s.items.items } };

    ghost invariant = { λ s. (QUESTIONS ≤ vec_capacity s.items)
        × AreInOrder 0 (map (λ f. f.question) s.items.items)
        × AllByRecursion IsRoom s.rooms.items
        × (QUESTIONS ≤ length s.items.items + length s.rooms.items)
        × (s.given ≡ []) };
}

impl Facts {
    /// No verdicts, with memory for the verdicts on this network.
    pub fn new(alloc: Global, net: &Network) -> Result<Facts, NoMemory>
        ensures empty { IfOk result (λ made. made.earlier ≡ []) }
        ensures fit { IfOk result (λ made. AreFactsOf net.now made) }
    {
        let _ = net;
        Ok(Facts {
            items: Vec::with_capacity(alloc, QUESTIONS)?,
            rooms: new_rooms(alloc)?,
            given: Verdicts::new(alloc)?,
        })
    }

    /// The verdict on a question, counted from 1.
    pub fn verdict(&self, question: u32) -> &Verdict
        requires { HoldsOn self.now.earlier question }
        ensures { result.now ≡ on self.now.earlier (asked question) }
    {
        for fact in &self.items {
            if fact.question == question {
                return &fact.verdict;
            }
        }
        &self.items[0].verdict
    }

    // Adds the accepted verdict on a question, in the memory that is reserved for it.
    pub(crate) fn accept(&mut self, question: u32, verdict: &Verdict)
        requires number { IsFrom 1 QUESTIONS question }
        requires later { HoldsNoneFrom question self.old.earlier }
        requires fits { DoesFit verdict.now }
        ensures { self.new.earlier ≡ self.old.earlier ++ (asked question, tight verdict.now) ∷ [] }
    {
        if let Some(room) = self.rooms.pop() {
            let verdict = keep(room, verdict);
            add(&mut self.items, Fact { question, verdict });
        }
    }

    /// The accepted verdicts in the order of their questions. It takes no memory.
    pub fn into_verdicts(self) -> Verdicts
        ensures { result ≡ map (λ e. e.1) self.earlier }
    {
        let mut verdicts = self.given;
        for fact in self.items {
            verdicts.push(fact.verdict);
        }
        verdicts
    }
}
