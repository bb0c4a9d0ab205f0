ghost use Rattle.std.specs.Prelude.{◌≡◌, ◌≤◌};
ghost use Rattle.ratchet.specs.Ratchet.{unit, level, part, spread, at, rep};
ghost use Rattle.ratchet.specs.Cost.{count, price};
ghost use Rattle.ratchet.specs.Passes.{span, passed};
ghost use Rattle.ratchet.specs.Advance.{advanced, stepped};

use crate::copies::{AdvanceRefusal, Advanced, Level, SessionCopy};
use crate::suite::Suite;

impl Level {
    fn unit(self) -> u32
        ensures { result ≡ unit self }
    {
        match self {
            Level::L0 => 16_777_216,
            Level::L1 => 65_536,
            Level::L2 => 256,
            Level::L3 => 1,
        }
    }

    // How many parts it hashes over: its own and those behind it.
    fn span(self) -> u32
        ensures { result ≡ span self }
    {
        4 - self as u32
    }

    // The level of the step to an index.
    fn of(index: u32) -> Level
        ensures { result ≡ level index }
    {
        if index % Level::L0.unit() == 0 {
            Level::L0
        } else if index % Level::L1.unit() == 0 {
            Level::L1
        } else if index % Level::L2.unit() == 0 {
            Level::L2
        } else {
            Level::L3
        }
    }
}

impl<P: Suite> SessionCopy<P> {
    fn part(self, level: Level) -> P
        ensures { result ≡ part level self }
    {
        match level {
            Level::L0 => self.r0,
            Level::L1 => self.r1,
            Level::L2 => self.r2,
            Level::L3 => self.r3,
        }
    }

    // Each part from the level on becomes its own hash of p; the index is given.
    fn spread(self, level: Level, p: P, index: u32) -> SessionCopy<P>
        ensures { result ≡ at index (spread P.suite.hash level p self) }
    {
        let part = |j: Level, old: P| if level <= j { p.hashed(j) } else { old };
        SessionCopy {
            index,
            r0: part(Level::L0, self.r0),
            r1: part(Level::L1, self.r1),
            r2: part(Level::L2, self.r2),
            r3: p.hashed(Level::L3),
        }
    }
}

// Hashes a part n times by one level's hash.
fn hash_times<P: Suite>(level: Level, p: P, n: u32) -> P
    ensures { result ≡ rep (P.suite.hash level) n p }
{
    // No `fold`: from its contract the answer did not follow.
    let mut q = p;
    for _i in 0..n {
        q = q.hashed(level);
    }
    q
}

// One level of an advance, with its hashes.
#[tactic(auto, unfolding(crate::specs::Passes::passed))]
fn pass<P: Suite>(copy: SessionCopy<P>, level: Level, target: u32) -> Advanced<P>
    requires { copy.index ≤ target }
    ensures copy { result.copy ≡ passed P.suite.hash level target copy }
    ensures within { result.copy.index ≤ target }
    ensures hashes { result.hashes ≡ price (span level) (count (unit level) copy.index target) }
{
    let unit = level.unit();
    let turns = target / unit - copy.index / unit;
    if turns == 0 {
        return Advanced { copy, hashes: 0 };
    }
    let p = hash_times(level, copy.part(level), turns - 1);
    Advanced {
        copy: copy.spread(level, p, unit * (target / unit)),
        hashes: turns - 1 + level.span(),
    }
}

// The copy that single steps to the target reach, and the hashes that it took.
pub fn advance<P: Suite>(copy: SessionCopy<P>, target: u32) -> Result<Advanced<P>, AdvanceRefusal>
    ensures { result ≡ advanced P.suite.hash copy target }
{
    if target < copy.index {
        return Err(AdvanceRefusal::TargetBelow);
    }
    let a = pass(copy, Level::L0, target);
    let b = pass(a.copy, Level::L1, target);
    let c = pass(b.copy, Level::L2, target);
    let d = pass(c.copy, Level::L3, target);
    Ok(Advanced {
        copy: d.copy,
        hashes: a.hashes + b.hashes + c.hashes + d.hashes,
    })
}

// One single step; there is none from the last index.
pub fn step<P: Suite>(copy: SessionCopy<P>) -> Option<SessionCopy<P>>
    ensures { result ≡ stepped P.suite.hash copy }
{
    let index = copy.index.checked_add(1)?;
    let level = Level::of(index);
    Some(copy.spread(level, copy.part(level), index))
}
