ghost use Rattle.std.specs.Prelude.{◌≡◌, ◌++◌, codes, decimal};
ghost use Rattle.crn_io.specs.Write.{Wrote};
ghost use Rattle.crn_text.specs.Codes.{code_number};
ghost use Rattle.crn_render.specs.Faults.{IsTextCode, IsDocumentCode, HasName, document_name as name_of_document, fault_line, usage_line, printed};

use crn_io::{Sink, WriteFault, put_all, put_parts};
use crn_text::TextCode;
use itoa::Buffer;

/// What is printed in place of a report. Lines count from 1, and line 0 stands for a whole text.
#[derive(Clone, Copy, Debug, PartialEq, Eq)]
pub enum Printed {
    /// A network text has a fault.
    Refused { code: u32, line: u32 },
    /// A document has a fault.
    Rejected { code: u32, line: u32 },
    /// The words of the command line are no command.
    Usage,
}

// The refusal of a network text that has this number.
fn text_code(number: u32) -> TextCode
    requires { IsTextCode number }
    ensures { code_number result ≡ number }
{
    match number {
        1 => TextCode::SelfReaction,
        2 => TextCode::TooManySpecies,
        3 => TextCode::TooManyComplexes,
        4 => TextCode::TooManyReactions,
        5 => TextCode::NoReaction,
        9 => TextCode::NoMemory,
        11 => TextCode::NotAscii,
        12 => TextCode::NoArrow,
        13 => TextCode::EmptySide,
        14 => TextCode::BadName,
        15 => TextCode::NameTooLong,
        16 => TextCode::ZeroCoefficient,
        17 => TextCode::CoefficientTooLarge,
        18 => TextCode::StrayMark,
        _ => TextCode::TextTooLong,
    }
}

// The name of the refusal of a document, also one of a part, that has this number.
fn document_name(number: u32) -> &'static [u8]
    requires { IsDocumentCode number }
    ensures { result.now ≡ name_of_document number }
{
    match number {
        21 => b"BadHeader",
        22 => b"BadNetwork",
        23 => b"UnknownWord",
        24 => b"BadField",
        25 => b"NumberWide",
        26 => b"WrongOrder",
        27 => b"EndsEarly",
        28 => b"AfterEnd",
        29 => b"DocumentTooLong",
        30 => b"LineTooLong",
        31 => b"WrongClasses",
        32 => b"WrongWalk",
        33 => b"NotIndependent",
        34 => b"NotSpanned",
        35 => b"BadVector",
        36 => b"WrongNumber",
        37 => b"WrongVerdict",
        41 => b"BadLeaf",
        42 => b"NodeNotAllowed",
        43 => b"TreeEndsEarly",
        44 => b"TreeGoesOn",
        45 => b"BadEvidence",
        46 => b"WrongShape",
        51 => b"NotSiphon",
        52 => b"NotCovered",
        53 => b"BadLaw",
        54 => b"BadNode",
        55 => b"WrongLine",
        56 => b"WrongCase",
        61 => b"NotIndependent",
        62 => b"NotSpanned",
        63 => b"WrongParts",
        64 => b"BadLink",
        71 => b"BadNode",
        72 => b"BadLeaf",
        _ => b"BadSlope",
    }
}

// The line of a fault.
#[tactic(auto, unfolding(crate::specs::Faults::fault_line))]
fn put_fault<K: Sink>(
    sink: &mut K,
    verb: &'static [u8],
    code: u32,
    name: &'static [u8],
    line: u32,
) -> Result<(), WriteFault>
    ensures { Wrote (fault_line verb.now code name.now line)
        (K.seen sink.old) (K.seen sink.new) result }
{
    let mut one = Buffer::new();
    let mut two = Buffer::new();
    let number = one.format(code).as_bytes();
    let place = two.format(line).as_bytes();
    put_parts(
        sink,
        &[verb, b" ", number, b" ", name, b" at line ", place, b"\n"],
    )
}

#[tactic(auto, unfolding(crate::specs::Faults::usage_line))]
fn put_usage<K: Sink>(sink: &mut K) -> Result<(), WriteFault>
    ensures { Wrote usage_line (K.seen sink.old) (K.seen sink.new) result }
{
    put_all(
        sink,
        b"usage: crnt report | certify | check | sample K | prove PART | verify PART, with --budget N except for check and verify\n",
    )
}

/// Writes the line that says a fault by its code, or how the program is used. Takes no memory.
pub fn write_fault<K: Sink>(fault: &Printed, sink: &mut K) -> Result<(), WriteFault>
    requires { HasName fault.now }
    ensures { Wrote (printed fault.now) (K.seen sink.old) (K.seen sink.new) result }
{
    match fault {
        Printed::Refused { code, line } => {
            put_fault(sink, b"refused", *code, text_code(*code).name(), *line)
        }
        Printed::Rejected { code, line } => {
            put_fault(sink, b"rejected", *code, document_name(*code), *line)
        }
        Printed::Usage => put_usage(sink),
    }
}
