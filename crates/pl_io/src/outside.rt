// What the program reads from and writes to.
ghost use Rattle.std.specs.Prelude.{ℕ, List, OnOk, OnErr};
ghost use Rattle.std.specs.declared.option.Option.{Option};
ghost use Rattle.std.specs.Io.{ReadsAtMost};
ghost use Rattle.std.specs.Io.KnownBytes.{Appends, ReadConsumes};
ghost use Rattle.pl_io.specs.Causes.{HasCause};
ghost use Rattle.pl_io.specs.Bytes.{AppendsPrefix};

use pl_base::Failed;

/// Where bytes come from.
pub trait Source {
    /// The bytes that are left, where they are told.
    ghost left: { Self → Option (List ℕ) };

    /// How often a read has failed. The count never falls, and stays at 2^64-1 once it is there.
    ghost faults: { Self → ℕ };

    /// Reads at most as many bytes as `into` has, to its front, and says how many. Zero bytes into a slice that isn't empty is the end.
    /// `Failed` comes only where the count of faults rose.
    fn read(&mut self, into: &mut [u8]) -> Result<usize, Failed>
        ensures bound { ReadsAtMost result into.new }
        ensures bytes { ReadConsumes (left self.old) (left self.new) result into.new }
        ensures cause { HasCause (faults self.old) (faults self.new) result };
}

/// Where bytes go.
pub trait Sink {
    /// The bytes that were written, where they are told.
    ghost written: { Self → Option (List ℕ) };

    /// How often a put has failed. The count never falls, and stays at 2^64-1 once it is there.
    ghost faults: { Self → ℕ };

    /// Writes the piece. After `Failed`, which comes only where the count of faults rose, a prefix of it stands.
    fn put(&mut self, piece: &[u8]) -> Result<(), Failed>
        ensures whole { OnOk result (Appends (written self.old) (written self.new) piece.now) }
        ensures part { OnErr result (AppendsPrefix (written self.old) (written self.new) piece.now) }
        ensures cause { HasCause (faults self.old) (faults self.new) result };
}
