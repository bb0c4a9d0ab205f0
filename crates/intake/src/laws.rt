ghost use Rattle.intake.specs.Laws.{MergeLaw};

use store::meaning::{Key, Value};

// What a merge leaves under each key.
#[tactic(auto, using(crate::proofs::Merges::merge_law_lem))]
pub fn merge_law<K: Key, V: Value>()
    ensures { MergeLaw K.rank V.join V.raise }
{}
