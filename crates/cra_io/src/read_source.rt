ghost use Rattle.std.specs.Prelude.{◌≡◌};
ghost use Rattle.cra_io.specs.Adapters.{read_faults, reader_of};

use crate::traits::{Failed, Source};
use std::io::Read;

/// A source over a reader of std, which has left what the reader has left, where that is known. Each
/// error of the reader is a fault, an interrupted read too.
#[derive(Debug, Drop)]
pub struct ReadSource<R> {
    reader: R,
    faults: u64,
}

impl<R: Read> ReadSource<R> {
    /// A source over this reader, with no fault so far.
    pub fn new(reader: R) -> ReadSource<R>
        ensures reader { reader_of result ≡ reader }
        ensures faults { read_faults result ≡ 0 }
    {
        ReadSource { reader, faults: 0 }
    }
}

impl<R: Read> Source for ReadSource<R> {
    ghost use Rattle.cra_io.specs.Adapters.{read_faults, reader_of};

    ghost left = { λ s. R.remaining (reader_of s) };

    ghost faults = { read_faults };

    fn read(&mut self, into: &mut [u8]) -> Result<usize, Failed> {
        match self.reader.read(into) {
            Ok(count) => Ok(count),
            Err(_) => {
                self.faults = self.faults.saturating_add(1);
                Err(Failed)
            }
        }
    }
}
