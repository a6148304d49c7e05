ghost use Rattle.std.specs.Prelude.{◌≡◌, ◌<◌, ◌≤◌, ℕ, List, Option, length, take, IfOk, OnErr};
ghost use Rattle.std.specs.Io.KnownBytes.{Appends, Consumes, IsAtEnd, Keeps};
ghost use Rattle.cra_io.specs.Faults.{HasCause};

/// A read or a write that failed. The count of faults of its source or sink rose.
#[derive(Clone, Copy, Debug, PartialEq, Eq)]
pub struct Failed;

/// What bytes are read from.
pub trait Source {
    // The bytes that are left, where the source tells them.
    ghost left: { Self → Option (List ℕ) };

    // How many reads failed.
    ghost faults: { Self → ℕ };

    /// Fills the first n bytes of the buffer, and answers n. Zero for a buffer that is not empty is
    /// the end of the input. A failed read gives nothing.
    fn read(&mut self, into: &mut [u8]) -> Result<usize, Failed>
        ensures within { IfOk result (λ n. n ≤ length into.new) }
        ensures bytes { IfOk result
            (λ n. Consumes (left self.old) (left self.new) (take n into.new)) }
        ensures end { IfOk result (λ n. n ≡ 0 → 0 < length into.new → IsAtEnd (left self.new)) }
        ensures kept { OnErr result (Keeps (left self.old) (left self.new)) }
        ensures cause { HasCause (faults self.old) (faults self.new) result };
}

/// What bytes are written to.
pub trait Sink {
    // The bytes that were taken, where the sink tells them.
    ghost taken: { Self → Option (List ℕ) };

    // How many writes failed.
    ghost faults: { Self → ℕ };

    /// Takes the first n bytes of the piece, and answers n, which is zero for an empty piece alone.
    /// A failed write takes nothing.
    fn write(&mut self, piece: &[u8]) -> Result<usize, Failed>
        ensures within { IfOk result (λ n. n ≤ length piece.now) }
        ensures moves { IfOk result (λ n. 0 < length piece.now → 0 < n) }
        ensures bytes { IfOk result
            (λ n. Appends (taken self.old) (taken self.new) (take n piece.now)) }
        ensures kept { OnErr result (Keeps (taken self.old) (taken self.new)) }
        ensures cause { HasCause (faults self.old) (faults self.new) result };
}
