ghost use Rattle.std.specs.Prelude.{◌^◌, ◌<◌};

// The name of a session: 32 bytes as four words, the most significant first.
#[derive(Clone, Copy, Debug, PartialEq, Eq, PartialOrd, Ord)]
pub struct Id {
    pub w0: u64,
    pub w1: u64,
    pub w2: u64,
    pub w3: u64,
    ghost fits0: { w0 < 2 ^ 64 },
    ghost fits1: { w1 < 2 ^ 64 },
    ghost fits2: { w2 < 2 ^ 64 },
    ghost fits3: { w3 < 2 ^ 64 },
}
