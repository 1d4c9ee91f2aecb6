//! The program: `run` over standard input and output.
#![tactic(auto)]

ghost use Rattle.std.specs.Prelude.{◌≡◌, true, false};

mod sink;

use crn_io::StdSource;
use crn_run::{Status, run};
use sink::WholeSink;
use std::io::{BufWriter, Write};
use std::process::ExitCode;
use std::{env, io};

/// The exit status if the words can't be got, which is not a status of a run.
const NO_WORDS: u8 = 8;

/// How many bytes of output are gathered before they are written.
///
/// When the C library takes back a block of twice the size, it joins all small blocks that were given back before.
const BLOCK: usize = 32_768;

// The words of the command line, the program's name first.
fn words(rt: &HostRuntime) -> io::Result<Vec<String>> {
    Ok(env::args(rt)?.collect(rt.alloc())?)
}

// How the program ends: as the run did, unless the bytes that were gathered last could not be written.
fn ended(status: Status, is_flushed: bool) -> Status
    ensures same { is_flushed ≡ true → result ≡ status }
    ensures fault { is_flushed ≡ false → result ≡ Status.WriteFault }
{
    if is_flushed {
        status
    } else {
        Status::WriteFault
    }
}

// Runs over standard input and a writer.
fn run_over(rt: &HostRuntime, words: &[String], writer: &mut impl Write) -> Status {
    let mut source = StdSource::new(rt.reader());
    let mut sink = WholeSink::new(writer);
    run(rt.alloc(), words, &mut source, &mut sink)
}

fn main(rt: HostRuntime) -> ExitCode {
    let words = match words(&rt) {
        Ok(words) => words,
        Err(_) => return ExitCode::from(NO_WORDS),
    };
    let mut writer = match BufWriter::with_capacity(rt.alloc(), BLOCK, io::writer(&rt)) {
        Ok(writer) => writer,
        Err(_) => return ExitCode::from(Status::NoMemory as u8),
    };
    let status = run_over(&rt, &words, &mut writer);
    let is_flushed = status != Status::WriteFault && writer.flush().is_ok();
    // What a failed write left over would be written when the writer is dropped.
    let _ = writer.into_parts();
    ExitCode::from(ended(status, is_flushed) as u8)
}
