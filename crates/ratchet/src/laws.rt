ghost use Rattle.std.specs.Prelude.{◌≡◌};
ghost use Rattle.std.specs.Ordering.{nat_cmp};
ghost use Rattle.ratchet.specs.Ids.{id_number};
ghost use Rattle.ratchet.specs.Join.{join, raised};
ghost use Rattle.ratchet.specs.Laws.{AdvanceCost, JoinLaws, RaiseLaws};

use crate::ids::Id;
use crate::suite::Suite;
use std::cmp::Ordering;

// Ids are ordered as unsigned numbers.
#[tactic(auto, using(crate::proofs::Ordering::id_order_lem))]
pub fn id_order(a: Id, b: Id) -> Ordering
    ensures { result ≡ nat_cmp (id_number a) (id_number b) }
{
    a.cmp(&b)
}

// No advance costs more than 1,026 hashes.
pub fn advance_cost()
    ensures { AdvanceCost }
{}

// Joining is associative, commutative and idempotent.
pub fn join_laws<P: Suite>()
    ensures { JoinLaws (join P.suite) }
{}

// Raising twice, and raising against joining.
pub fn raise_laws<P: Suite>()
    ensures { RaiseLaws (join P.suite) (raised P.suite) }
{}
