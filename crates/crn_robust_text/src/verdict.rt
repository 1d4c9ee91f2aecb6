ghost use Rattle.std.specs.Prelude.{◌≡◌, ◌≢◌, ◌<◌, ◌^◌, ◌↔◌, ◌+◌, List, IfOk, IsTrue, OnOk, nat_abs, pos, slice_index_or, unsigned_abs};
ghost use Rattle.std.specs.List.{AllByRecursion};
ghost use Rattle.crn_cert.specs.Questions.{Earlier, Q5, on};
ghost use Rattle.crn_ctext.specs.Records.{Record};
ghost use Rattle.crn_ctext.specs.Meaning.{number};
ghost use Rattle.crn_check.specs.Facts.{AreFactsOf, HoldsOn};
ghost use Rattle.crn_document.specs.Facts.{after_facts};
ghost use Rattle.crn_reading.specs.Records.{IsPartSaid};
ghost use Rattle.crn_reading.specs.Steps.{GoesOn, StepIs};
ghost use Rattle.crn_robust.specs.declared.robust.Robust.{Robust as Said};
ghost use Rattle.crn_robust.specs.declared.robust.Robust.TheVariants.{Yes};
ghost use Rattle.crn_robust_text.specs.Document.{asks_case, asks_verdict, is_open, line_of};
ghost use Rattle.crn_robust_text.specs.Inner.LinesRead.{AreSmall, CaseSaid, Decides, HoldsBlocks, IsTrueVerdict, ReadsVerdict, SaysOne};

use crate::lines::{next_case, next_line, next_rests};
use crn_cert::Verdict;
use crn_check::Facts;
use crn_io::Source;
use crn_net::Network;
use crn_reading::{CheckStop, Reading};
use crn_robust::{Robust, pick};

// Whether the rank is open.
fn is_rank_open(facts: &Facts) -> bool
    requires { HoldsOn facts.now.earlier 5 }
    ensures { result ≡ is_open (on facts.now.earlier Q5) }
{
    match facts.verdict(5) {
        Verdict::Unknown(_) => true,
        _ => false,
    }
}

/// Whether a verdict says that the deficiency is 1.
pub(crate) fn says_line(robust: &Robust) -> bool
    ensures { IsTrue result ↔ (line_of robust.now ≡ 1) }
{
    match robust {
        Robust::Yes { .. } => true,
        Robust::None => true,
        _ => false,
    }
}

// The absolute value of a small number.
fn small(value: i128) -> u32
    requires { unsigned_abs value < 2 ^ 32 }
    ensures { result ≡ nat_abs value }
{
    value.unsigned_abs() as u32
}

// The absolute value of the number at this place of a line of small numbers, counted from 0, and 0 if there is none.
fn number_at(numbers: &[i128], i: usize) -> u32
    requires { AreSmall numbers.now }
    ensures { result ≡ number numbers.now i }
{
    match numbers.get(i) {
        Some(value) => small(*value),
        None => 0,
    }
}

// Whether the number of a line says that the confluence space is a line.
fn says_one(numbers: &[i128]) -> bool
    requires { AreSmall numbers.now }
    ensures { IsTrue result ↔ SaysOne numbers.now }
{
    number_at(numbers, 0) == 1
}

// Whether a line says the pair, counted from 1.
fn is_pair(numbers: &[i128], place: u32, species: u32, first: u32, second: u32) -> bool
    requires { AreSmall numbers.now }
    ensures { (said : Said) → CaseSaid place numbers.now said
        → IsTrue result ↔ said ≡ Yes species first second }
{
    if place != 1 {
        return false;
    }
    if number_at(numbers, 0) != species {
        return false;
    }
    if number_at(numbers, 1) != first {
        return false;
    }
    number_at(numbers, 2) == second
}

// Whether the line of a verdict says this one.
fn is_said(numbers: &[i128], place: u32, robust: &Robust) -> bool
    requires { AreSmall numbers.now }
    ensures { (said : Said) → CaseSaid place numbers.now said → IsTrue result ↔ said ≡ robust.now }
{
    match robust {
        Robust::Yes {
            species,
            first,
            second,
        } => is_pair(numbers, place, *species, *first, *second),
        Robust::Number(deficiency) => place == 2 && number_at(numbers, 0) == *deficiency,
        Robust::None => place == 3,
        Robust::Rests => false,
    }
}

// The lines after blocks that decide the rank, where this case holds.
fn next_decided<S: Source>(
    source: &mut S,
    at: &mut Reading,
    net: &Network,
    robust: &Robust,
) -> Result<(), CheckStop>
    requires { GoesOn at.old }
    ensures step { (earlier : Earlier) → Decides net.now earlier robust.now
        → StepIs (asks_case net.now earlier at.old.line)
        (λ _ y. y ≡ (at.new.line, robust.now))
        result at.old at.new (S.seen source.old) (S.seen source.new) }
    ensures goes { OnOk result (GoesOn at.new) }
{
    net.meets_definition();
    next_line(source, at)?;
    let is_one = says_one(at.numbers.as_slice());
    let place = next_case(source, at, net)?;
    if is_one != says_line(robust) {
        return Err(CheckStop::Rejected {
            code: 55,
            line: at.line - 2,
        });
    }
    if !is_said(at.numbers.as_slice(), place, robust) {
        return Err(CheckStop::Rejected {
            code: 56,
            line: at.line - 1,
        });
    }
    Ok(())
}

/// The lines after the blocks, of which these facts are accepted.
pub(crate) fn next_verdict<S: Source>(
    source: &mut S,
    at: &mut Reading,
    net: &Network,
    facts: &Facts,
) -> Result<Robust, CheckStop>
    requires goes { GoesOn at.old }
    requires facts { AreFactsOf net.now facts.now }
    requires holds { HoldsBlocks facts.now.earlier }
    ensures step { (blocks : List (List Record)) →
        ReadsVerdict (asks_verdict net.now
        (after_facts net.now facts.now.earlier at.old.line blocks))
        result at.old at.new (S.seen source.old) (S.seen source.new) }
    ensures goes { OnOk result (GoesOn at.new) }
    ensures holds { IfOk result (IsTrueVerdict net.now) }
{
    net.meets_definition();
    if is_rank_open(facts) {
        next_rests(source, at)?;
        return Ok(Robust::Rests);
    }
    let robust = pick(net, facts.verdict(1), facts.verdict(2), facts.verdict(5));
    next_decided(source, at, net, &robust)?;
    Ok(robust)
}
