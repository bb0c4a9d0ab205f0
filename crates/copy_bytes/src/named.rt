ghost use Rattle.std.specs.Prelude.{◌≡◌};
ghost use Rattle.copy_bytes.specs.Numbers.{copy_number};

use ratchet::copies::SessionCopy;
use ratchet::ids::Id;

// A copy of a session under the session's id.
#[derive(Clone, Copy, PartialEq, Eq)]
pub struct NamedCopy<P> {
    pub id: Id,
    pub copy: SessionCopy<P>,
}

// Which of a suite's version bytes is written before a copy.
#[derive(Clone, Copy, Debug, PartialEq, Eq)]
pub enum Version {
    Share,
    Export,
}

// Which of a suite's version bytes a reader takes.
#[derive(Clone, Copy, Debug, PartialEq, Eq)]
pub enum Accepted {
    ShareOrExport,
    Export,
}

// Why bytes are no copy, by its number: their length, or their version byte.
#[derive(Clone, Copy, Debug, PartialEq, Eq)]
pub enum CopyFault {
    Length = 1,
    Version = 2,
}

impl From<CopyFault> for u8 {
    ghost from_gives = { λ r n. n ≡ copy_number r };

    fn from(fault: CopyFault) -> u8 {
        fault as u8
    }
}
