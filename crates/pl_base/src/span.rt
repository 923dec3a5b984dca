// Ranges of addresses.
ghost use Rattle.std.specs.Prelude.{◌≡◌};
ghost use Rattle.pl_base.specs.Span.{overlaps, covers};

/// The byte addresses from `start` up to `stop`, which is not in it.
#[derive(Clone, Copy, PartialEq, Eq, Debug)]
pub struct Span {
    pub start: u64,
    pub stop: u64,
}

impl Span {
    /// Whether some address is in both.
    pub fn overlaps(self, other: Span) -> bool
        ensures { result ≡ overlaps self other }
    {
        self.start.max(other.start) < self.stop.min(other.stop)
    }

    /// Whether no address of `other` is outside this one.
    pub fn covers(self, other: Span) -> bool
        ensures { result ≡ covers self other }
    {
        self.start <= other.start && other.stop <= self.stop
    }
}
