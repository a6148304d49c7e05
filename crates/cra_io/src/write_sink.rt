ghost use Rattle.std.specs.Prelude.{◌≡◌};
ghost use Rattle.cra_io.specs.Adapters.{write_faults, writer_of};

use crate::traits::{Failed, Sink};
use std::io::Write;

/// A sink over a writer of std, which has taken what the writer holds, where that is known. Each
/// error of the writer is a fault, and so is a write that takes nothing of a piece that is not empty.
#[derive(Debug, Drop)]
pub struct WriteSink<W> {
    writer: W,
    faults: u64,
}

impl<W: Write> WriteSink<W> {
    /// A sink over this writer, with no fault so far.
    pub fn new(writer: W) -> WriteSink<W>
        ensures writer { writer_of result ≡ writer }
        ensures faults { write_faults result ≡ 0 }
    {
        WriteSink { writer, faults: 0 }
    }
}

impl<W: Write> Sink for WriteSink<W> {
    ghost use Rattle.cra_io.specs.Adapters.{write_faults, writer_of};

    ghost taken = { λ s. W.contents (writer_of s) };

    ghost faults = { write_faults };

    fn write(&mut self, piece: &[u8]) -> Result<usize, Failed> {
        match self.writer.write(piece) {
            Ok(count) if count > 0 || piece.is_empty() => Ok(count),
            _ => {
                self.faults = self.faults.saturating_add(1);
                Err(Failed)
            }
        }
    }
}
