// A length of time in whole nanoseconds, in 64 bits.
ghost use Rattle.std.specs.Prelude.{◌≡◌, ◌<◌};
ghost use Rattle.common.specs.Limits.{duration_end};

#[derive(Clone, Copy, Debug, PartialEq, Eq, PartialOrd, Ord, Hash)]
pub struct Duration {
    nanos: u64,
    ghost fits: { nanos < duration_end },
}

impl Duration {
    // Named as the standard library's.
    pub fn from_nanos(nanos: u64) -> Duration
        ensures answer { result.nanos ≡ nanos }
    {
        Duration { nanos }
    }

    pub fn as_nanos(self) -> u64
        ensures answer { result ≡ self.nanos }
    {
        self.nanos
    }
}
