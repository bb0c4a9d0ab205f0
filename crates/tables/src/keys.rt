ghost use Rattle.std.specs.Prelude.{ℕ};
ghost use Rattle.tables.specs.Limits.{most_sessions, most_sightings};

use ratchet::ids::Id;
use store::meaning::Key;
use store::spot::Spot;

// A key that tables hold, and how many at most.
pub trait TableKey: Key {
    const MOST: usize;

    ghost MOST: { ℕ };
}

impl TableKey for Id {
    const MOST: usize = 4096;

    ghost MOST = { most_sessions };
}

impl TableKey for Spot {
    const MOST: usize = 65_536;

    ghost MOST = { most_sightings };
}
