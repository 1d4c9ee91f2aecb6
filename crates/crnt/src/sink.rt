ghost use Rattle.std.specs.Prelude.{None, ◌≡◌, ◌<◌, ◌^◌};

use crn_io::{Push, Sink};
use std::io::Write;

/// A sink over a writer, which takes all of a piece or fails. It shows nothing of its bytes and no room.
///
/// So nothing is left of a piece that it took, and one whose length is known where it is written is copied without a loop.
#[derive(Drop)]
pub struct WholeSink<W: Write> {
    inner: W,
    faults: u64,
    ghost bounded: { faults < 2 ^ 64 },
}

impl<W: Write> WholeSink<W> {
    /// Takes no memory.
    pub fn new(inner: W) -> WholeSink<W>
        ensures { result.faults ≡ 0 }
    {
        WholeSink { inner, faults: 0 }
    }
}

impl<W: Write> Sink for WholeSink<W> {
    ghost seen = { λ s. record { took = None; room = None; faults = s.faults } };

    fn push(&mut self, piece: &[u8]) -> Push {
        match self.inner.write_all(piece) {
            Ok(()) => Push::Took(piece.len()),
            Err(_) => {
                self.faults = self.faults.saturating_add(1);
                Push::Failed
            }
        }
    }
}
