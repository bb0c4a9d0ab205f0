ghost use Rattle.std.specs.Prelude.{◌^◌};
ghost use Rattle.ratchet.specs.Ids.{id_number};
ghost use Rattle.store.specs.Keys.{spot_number};
ghost use Rattle.ratchet.proofs.Ordering.{id_order_lem, id_then_lem};

use crate::meaning::Key;
use crate::spot::Spot;
use ratchet::ids::Id;

// Ids are ordered as unsigned numbers.
impl Key for Id {
    ghost rank = { id_number };

    ghost ordered = { id_order_lem };
}

// Spots are ordered by their session, and then by the index.
impl Key for Spot {
    ghost rank = { spot_number };

    ghost ordered = { λ a b. id_then_lem a.id b.id (2 ^ 32) a.index b.index a.fits b.fits };
}
