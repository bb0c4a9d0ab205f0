ghost use Rattle.std.specs.Prelude.{◌≡◌};
ghost use Rattle.ratchet.specs.Join.{reaches, join, raised};

use crate::advance::advance;
use crate::copies::{Holding, SessionCopy};
use crate::suite::Suite;

// Whether the lower copy, stepped to the higher's index, equals it.
fn leads_to<P: Suite>(low: SessionCopy<P>, high: SessionCopy<P>) -> bool
    ensures { result ≡ reaches P.suite low high }
{
    advance(low, high.index).is_ok_and(|there| there.copy == high)
}

// Joins two holdings: of two agreeing copies the lower, else the mark of a dispute.
pub fn join_holdings<P: Suite>(a: Holding<P>, b: Holding<P>) -> Holding<P>
    ensures { result ≡ join P.suite a b }
{
    match (a, b) {
        (Holding::Held(x), Holding::Held(y)) if leads_to(x, y) => a,
        (Holding::Held(x), Holding::Held(y)) if leads_to(y, x) => b,
        _ => Holding::Disputed,
    }
}

// Raises a holding to a floor: a lower copy is advanced to it.
pub fn raise_holding<P: Suite>(h: Holding<P>, floor: u32) -> Holding<P>
    ensures { result ≡ raised P.suite floor h }
{
    match h {
        Holding::Held(c) => Holding::Held(advance(c, floor).map_or(c, |there| there.copy)),
        Holding::Disputed => Holding::Disputed,
    }
}
