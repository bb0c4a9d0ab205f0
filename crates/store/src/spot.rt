ghost use Rattle.std.specs.Prelude.{◌^◌, ◌<◌};

use ratchet::ids::Id;

// Where a message was seen: its session and its index.
#[derive(Clone, Copy, Debug, PartialEq, Eq, PartialOrd, Ord)]
pub struct Spot {
    pub id: Id,
    pub index: u32,
    ghost fits: { index < 2 ^ 32 },
}
