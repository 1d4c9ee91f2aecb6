ghost use Rattle.std.specs.Prelude.{◌≡◌, ◌≤◌, ◌++◌, IfOk, drop, length, map, string_bytes};
ghost use Rattle.crn_run.specs.declared.status.Status.TheVariants.{WriteFault};
ghost use Rattle.crn_page.specs.Page.{Ends, Ran, status_number};

use crate::words::words_in;
use crn_io::{NoMemory, QuietSink, QuietSource};
use crn_run::{Status, run};
use std::alloc::Global;

/// The words are not UTF-8, as the program ends if it cannot read its words.
const NO_WORDS: u8 = 8;

/// Runs `crnt` with the words of a command line on a text.
///
/// The line has the words with the byte 0 between each two, the program's name first. What the run writes stands at the
/// head of `out`, as many bytes as `length` then says. It answers the number of the status, or 8 if the words are not
/// UTF-8. If what is to be written does not fit, the status is `WriteFault`, and nothing is handed out. Takes memory, and
/// gives all of it back.
#[unsafe(no_mangle)]
pub extern "C" fn crn_page_run(
    alloc: Global,
    line: &[u8],
    text: &[u8],
    out: &mut [u8],
    length: &mut usize,
) -> u8
    ensures { Ends result line.now text.now out.old out.new length.new }
{
    *length = 0;
    let words = match words_in(alloc, line) {
        Ok(Some(words)) => words,
        Ok(None) => return NO_WORDS,
        Err(_) => return number_of(Status::NoMemory),
    };
    let (status, sink) = match run_over(alloc, &words, text, out.len()) {
        Ok(done) => done,
        Err(_) => return number_of(Status::NoMemory),
    };
    let written = match status {
        Status::WriteFault => return number_of(status),
        _ => sink.bytes(),
    };
    *length = hand_out(written, out);
    number_of(status)
}

// Runs over the text, into a sink with this room.
fn run_over(
    alloc: Global,
    words: &[String],
    text: &[u8],
    room: usize,
) -> Result<(Status, QuietSink), NoMemory>
    ensures ran { IfOk result (λ done.
        Ran done.0 (map string_bytes words.now) text.now room done.1.bytes) }
    ensures fits { IfOk result (λ done.
        (done.0 ≡ WriteFault → ⊥) → length done.1.bytes ≤ room) }
{
    let mut source = QuietSource::new(text);
    let mut sink = QuietSink::new(alloc, room)?;
    let status = run(alloc, words, &mut source, &mut sink);
    Ok((status, sink))
}

// Copies the bytes to the head of the room, and says how many there are.
fn hand_out(bytes: &[u8], out: &mut [u8]) -> usize
    requires { length bytes.now ≤ length out.old }
    ensures count { result ≡ length bytes.now }
    ensures out { out.new ≡ bytes.now ++ drop (length bytes.now) out.old }
{
    let count = bytes.len();
    out[..count].copy_from_slice(bytes);
    count
}

// The number that the program ends with.
fn number_of(status: Status) -> u8
    ensures { result ≡ status_number status }
{
    status as u8
}
