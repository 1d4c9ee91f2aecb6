ghost use Rattle.std.specs.Prelude.{◌↔◌, ◌≡◌, IsTrue};
ghost use Rattle.crn_text.specs.declared.fault.TextCode.TheVariants.{NoMemory};
ghost use Rattle.crn_run.specs.Inner.Network.{NetworkRead, TextRead};

use crn_io::{ReadStop, Source, read_all};
use crn_net::Network;
use crn_text::{TextCode, TextFault, read};
use crn_vec::MAX_TEXT;
use std::alloc::Global;

/// Why no network was read.
#[derive(Clone, Copy, Debug, PartialEq, Eq)]
pub(crate) enum Stop {
    /// The first fault of the text.
    Fault { code: TextCode, line: u32 },
    /// The source failed.
    Failed,
    /// Memory ran out.
    NoMemory,
}

/// Reads a network text to its end. Takes memory for the text and for the network.
pub(crate) fn read_network<S: Source>(alloc: Global, source: &mut S) -> Result<Network, Stop>
    ensures { NetworkRead result (S.seen source.old) (S.seen source.new) }
{
    match read_all(alloc, source, MAX_TEXT) {
        Ok(text) => network_of(alloc, text.as_slice()),
        Err(ReadStop::TooLong) => Err(Stop::Fault {
            code: TextCode::TextTooLong,
            line: 0,
        }),
        Err(ReadStop::Failed) => Err(Stop::Failed),
        Err(ReadStop::NoMemory) => Err(Stop::NoMemory),
    }
}

// Whether memory ran out while a text was read, which is no fault of the text.
fn is_out_of_memory(code: TextCode) -> bool
    ensures { IsTrue result ↔ (code ≡ NoMemory) }
{
    matches!(code, TextCode::NoMemory)
}

// The network of a text that was read.
fn network_of(alloc: Global, text: &[u8]) -> Result<Network, Stop>
    ensures { TextRead result text.now }
{
    match read(alloc, text) {
        Ok(net) => Ok(net),
        Err(fault) => {
            if is_out_of_memory(fault.code) {
                return Err(Stop::NoMemory);
            }
            Err(Stop::Fault {
                code: fault.code,
                line: fault.line,
            })
        }
    }
}
