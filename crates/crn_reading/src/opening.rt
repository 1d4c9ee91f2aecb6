ghost use Rattle.std.specs.Prelude.{◌≡◌, ◌≤◌, ◌+◌, ◌++◌, ◌∷◌, [], ◌↔◌, IsTrue, IfOk, OnOk, length, codes};
ghost use Rattle.crn_vec.specs.Network.{IsNetwork};
ghost use Rattle.crn_vec.specs.declared.limits.TheConstants.{MAX_REACTIONS};
ghost use Rattle.crn_io.specs.declared.lines.TheConstants.{MAX_NUMBERS};
ghost use Rattle.crn_ctext.specs.Blocks.{asks_lines, network_line};
ghost use Rattle.crn_ctext.specs.Parts.{part_opening, part_title};
ghost use Rattle.crn_reading.specs.Steps.{CanRead, GoesOn, IsNew, StepIs};
ghost use Rattle.crn_reading.specs.Opening.{part_title_course, title_course, count_course, network_course};
ghost use Rattle.crn_reading.specs.Inner.Opening.{AreAdded, IsAddedLine, IsVersionOf, IsCountOf};

use crate::fault::CheckStop;
use crate::network::network_of;
use crate::reading::{Reading, next_line};
use crn_ctext::are_same;
use crn_io::{NoMemory, Source};
use crn_net::Network;
use crn_vec::MAX_REACTIONS;
use itoa::Buffer;

// Whether the line is this text.
fn is_line(line: &[u8], text: &[u8]) -> bool
    ensures { IsTrue result ↔ (line.now ≡ text.now) }
{
    line == text
}

// Whether the bytes are the name of a part, and its version.
fn is_name(rest: &[u8], part: &[u8]) -> bool
    ensures { IsTrue result ↔ (rest.now ≡ part.now ++ codes " 1") }
{
    if rest.len() < part.len() {
        return false;
    }
    let (name, version) = rest.split_at(part.len());
    if !are_same(name, part) {
        return false;
    }
    are_same(version, b" 1")
}

// Whether the line is the title of a part.
fn is_title(line: &[u8], part: &[u8]) -> bool
    ensures { IsTrue result ↔ (line.now ≡ part_title part.now) }
{
    match line.strip_prefix(b"crn part ") {
        Some(rest) => is_name(rest, part),
        None => false,
    }
}

// Whether the line says that the network has this many lines.
fn says_count(line: &[u8], count: u32) -> bool
    ensures { IsTrue result ↔ (line.now ≡ network_line count) }
{
    let mut buffer = Buffer::new();
    match line.strip_prefix(b"network ") {
        Some(digits) => digits == buffer.format(count).as_bytes(),
        None => false,
    }
}

// The version of which this is the first line.
fn version_of(line: &[u8]) -> Option<u32>
    ensures { IsVersionOf line.now result }
{
    if is_line(line, b"crn certificate 1") {
        return Some(1);
    }
    if is_line(line, b"crn certificate 2") {
        return Some(2);
    }
    None
}

// The number of lines that the network has by this second line. There are so few numbers that each is tried.
fn count_of(line: &[u8]) -> Option<u32>
    ensures { IsCountOf line.now result }
{
    for count in 1..=MAX_REACTIONS as u32 {
        if says_count(line, count) {
            return Some(count);
        }
    }
    None
}

/// The first line of a document, which says its version.
pub fn next_version<S: Source>(source: &mut S, at: &mut Reading) -> Result<(), CheckStop>
    requires reads { CanRead at.old }
    requires first { (at.old.line ≡ 1) × (at.old.lines.taken ≡ 0) }
    requires room { MAX_NUMBERS ≤ at.old.numbers.spare + length at.old.numbers.list }
    ensures step { StepIs title_course (λ _ version. version ≡ at.new.version) result at.old at.new
        (S.seen source.old) (S.seen source.new) }
    ensures goes { OnOk result (GoesOn at.new) }
    ensures line { OnOk result (at.new.line ≡ 2) }
{
    next_line(source, at, false)?;
    match version_of(at.lines.line()) {
        Some(version) => {
            at.version = version;
            Ok(())
        }
        None => Err(CheckStop::Rejected { code: 21, line: 1 }),
    }
}

/// The first line of a document of a part. A reading of parts has version 1.
pub fn next_part_title<S: Source>(
    source: &mut S,
    at: &mut Reading,
    part: &[u8],
) -> Result<(), CheckStop>
    requires reads { CanRead at.old }
    requires first { (at.old.line ≡ 1) × (at.old.lines.taken ≡ 0) }
    requires room { MAX_NUMBERS ≤ at.old.numbers.spare + length at.old.numbers.list }
    ensures step { StepIs (part_title_course part.now) (λ _ _. Unit {0}) result at.old at.new
        (S.seen source.old) (S.seen source.new) }
    ensures goes { OnOk result (GoesOn at.new) }
    ensures line { OnOk result (at.new.line ≡ 2) }
    ensures version { OnOk result (at.new.version ≡ 1) }
{
    next_line(source, at, false)?;
    if is_title(at.lines.line(), part) {
        at.version = 1;
        return Ok(());
    }
    Err(CheckStop::Rejected { code: 21, line: 1 })
}

/// The second line of a document, which says how many lines its network has.
pub fn next_count<S: Source>(source: &mut S, at: &mut Reading) -> Result<u32, CheckStop>
    requires goes { GoesOn at.old }
    requires second { at.old.line ≡ 2 }
    ensures step { StepIs count_course (λ count n. n ≡ count) result at.old at.new
        (S.seen source.old) (S.seen source.new) }
    ensures goes { OnOk result (GoesOn at.new) }
    ensures few { IfOk result (λ count. (1 ≤ count) × (count ≤ MAX_REACTIONS)) }
    ensures line { OnOk result (at.new.line ≡ 3) }
    ensures version { at.new.version ≡ at.old.version }
{
    next_line(source, at, false)?;
    match count_of(at.lines.line()) {
        Some(count) => Ok(count),
        None => Err(CheckStop::Rejected { code: 22, line: 2 }),
    }
}

// Adds a line with its LF.
fn add_line(text: &mut Vec<u8>, line: &[u8]) -> Result<(), NoMemory>
    ensures { OnOk result (text.new.items ≡ text.old.items ++ line.now ++ 10 ∷ []) }
{
    text.extend_from_slice(line)?;
    text.extend_from_slice(b"\n")?;
    Ok(())
}

// The most bytes of a line of a canonical text, its LF not counted: of each species on both sides a name, two digits and
// the mark before it, and the arrow.
const NETWORK_LINE: usize = 4_446;

// Adds a line with its LF, or notes that no canonical text has it because it is too long.
fn keep_line(text: &mut Vec<u8>, line: &[u8], long: &mut bool) -> Result<(), NoMemory>
    ensures { OnOk result
        (IsAddedLine long.old long.new text.old.items text.new.items line.now) }
{
    if line.len() > NETWORK_LINE {
        *long = true;
        return Ok(());
    }
    add_line(text, line)
}

// The next `count` lines, whatever they hold. Each is added to the text with its LF, so long as no line is too
// long for a network: then no text is needed, and the longest lines take no memory.
fn next_lines<S: Source>(
    source: &mut S,
    at: &mut Reading,
    count: u32,
    text: &mut Vec<u8>,
    long: &mut bool,
) -> Result<(), CheckStop>
    requires goes { GoesOn at.old }
    ensures step { StepIs (asks_lines count)
        (λ _ lines. AreAdded long.old long.new text.old.items text.new.items lines)
        result at.old at.new (S.seen source.old) (S.seen source.new) }
    ensures goes { OnOk result (GoesOn at.new) }
    ensures line { OnOk result (at.new.line ≡ at.old.line + count) }
    ensures version { at.new.version ≡ at.old.version }
{
    if count == 0 {
        return Ok(());
    }
    next_line(source, at, false)?;
    keep_line(text, at.lines.line(), long)?;
    next_lines(source, at, count - 1, text, long)
}

/// The next `count` lines, which are those of the network, and the network whose canonical text they are.
pub fn next_network<S: Source>(
    source: &mut S,
    at: &mut Reading,
    count: u32,
) -> Result<Network, CheckStop>
    requires goes { GoesOn at.old }
    requires few { count ≤ MAX_REACTIONS }
    requires third { at.old.line ≡ 3 }
    ensures step { StepIs (network_course count) (λ net n. n ≡ net) result at.old at.new
        (S.seen source.old) (S.seen source.new) }
    ensures goes { OnOk result (GoesOn at.new) }
    ensures network { IfOk result IsNetwork }
    ensures line { OnOk result (at.new.line ≡ 3 + count) }
    ensures version { at.new.version ≡ at.old.version }
{
    let mut text = Vec::new(at.alloc);
    let mut long = false;
    next_lines(source, at, count, &mut text, &mut long)?;
    if long {
        return Err(CheckStop::Rejected {
            code: 22,
            line: 2 + count,
        });
    }
    match network_of(at.alloc, &text)? {
        Some(net) => Ok(net),
        None => Err(CheckStop::Rejected {
            code: 22,
            line: 2 + count,
        }),
    }
}

/// The lines of a document of a part up to the last one of its network.
pub fn read_part_head<S: Source>(
    source: &mut S,
    at: &mut Reading,
    part: &[u8],
) -> Result<Network, CheckStop>
    requires new { IsNew at.old }
    ensures step { StepIs (part_opening part.now) (λ net opened. opened ≡ (net, at.new.line))
        result at.old at.new (S.seen source.old) (S.seen source.new) }
    ensures goes { OnOk result (GoesOn at.new) }
    ensures network { IfOk result IsNetwork }
    ensures version { OnOk result (at.new.version ≡ 1) }
{
    next_part_title(source, at, part)?;
    let count = next_count(source, at)?;
    next_network(source, at, count)
}
