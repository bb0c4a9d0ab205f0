ghost use Rattle.opening.specs.Laws.{Opens};

use ratchet::suite::Suite;

// What a sender seals opens, by any copy of it that is not past the message.
#[tactic(auto, using(crate::proofs::Opens::opens))]
pub fn sealed_opens<P: Suite>()
    ensures { Opens P.suite }
{}
