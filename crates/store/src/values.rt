ghost use Rattle.ratchet.specs.Join.{join as join_copies, raised as raise_copies};
ghost use Rattle.store.specs.Sightings.{join_sightings, unraised};
ghost use Rattle.store.specs.Joining.{holding_laws, sighting_laws};

use crate::meaning::Value;
use crate::sighting::Sighting;
use ratchet::copies::Holding;
use ratchet::holdings::{join_holdings, raise_holding};
use ratchet::suite::Suite;

impl<P: Suite> Value for Holding<P> {
    ghost join = { join_copies P.Suite.suite };

    ghost raise = { raise_copies P.Suite.suite };

    ghost laws = { holding_laws P.Suite.suite P.Suite.lawful };

    fn joined(self, other: Holding<P>) -> Holding<P> {
        join_holdings(self, other)
    }

    fn raised(self, floor: u32) -> Holding<P> {
        raise_holding(self, floor)
    }
}

// Two equal events join to the event, all else to the mark; no floor raises a sighting.
impl Value for Sighting {
    ghost join = { join_sightings };

    ghost raise = { unraised };

    ghost laws = { sighting_laws };

    fn joined(self, other: Sighting) -> Sighting {
        match (self, other) {
            (Sighting::Event(a), Sighting::Event(b)) if a == b => self,
            _ => Sighting::Repeated,
        }
    }

    fn raised(self, _floor: u32) -> Sighting {
        self
    }
}
