ghost use Rattle.std.specs.Prelude.{◌≡◌};
ghost use Rattle.ratchet.specs.Numbers.{advance_number};

// A copy of a session: an index and four parts of the suite's own kind.
#[derive(Clone, Copy, PartialEq, Eq)]
pub struct SessionCopy<P> {
    pub index: u32,
    pub r0: P,
    pub r1: P,
    pub r2: P,
    pub r3: P,
}

// What is held of a session: a copy, or the mark that copies of it disagreed.
// Not an Option: a dispute is held too, and a store says by an Option whether anything is.
#[derive(Clone, Copy, PartialEq, Eq)]
pub enum Holding<P> {
    Held(SessionCopy<P>),
    Disputed,
}

// One of the four parts R0 to R3, and the hash H0 to H3 that makes it.
#[derive(Clone, Copy, Debug, PartialEq, Eq, PartialOrd, Ord)]
pub enum Level {
    L0 = 0,
    L1 = 1,
    L2 = 2,
    L3 = 3,
}

// Why an advance is refused, by its number.
#[derive(Clone, Copy, Debug, PartialEq, Eq)]
pub enum AdvanceRefusal {
    TargetBelow = 21,
}

impl From<AdvanceRefusal> for u8 {
    ghost from_gives = { λ r n. n ≡ advance_number r };

    fn from(refusal: AdvanceRefusal) -> u8 {
        refusal as u8
    }
}

// What an advance answers: the copy reached, and how many hashes that took.
#[derive(Clone, Copy, PartialEq, Eq)]
pub struct Advanced<P> {
    pub copy: SessionCopy<P>,
    pub hashes: u32,
}
