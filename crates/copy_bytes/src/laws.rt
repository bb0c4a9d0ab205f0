ghost use Rattle.copy_bytes.specs.Laws.{CopyLaws, IdLaws};

use ratchet::suite::Suite;

// Copies and their bytes turn into each other without loss.
pub fn copy_laws<P: Suite>()
    ensures { CopyLaws P.suite }
{}

// Ids, their bytes and their numbers turn into each other without loss.
pub fn id_laws()
    ensures { IdLaws }
{}
