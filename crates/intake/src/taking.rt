ghost use Rattle.std.specs.Prelude.{◌≡◌, Err};
ghost use Rattle.intake.specs.declared.take_refusal.TakeRefusal.TheVariants.{Length, Version, NoPlace};
ghost use Rattle.intake.specs.Taking.{bytes_answer, bytes_taken};

use crate::take_refusal::TakeRefusal;
use copy_bytes::named::Accepted;
use copy_bytes::reading::read_copy;
use ratchet::copies::Holding;
use ratchet::ids::Id;
use ratchet::suite::Suite;
use store::meaning::Store;

// Takes the copy that some bytes are, with either version byte, under its id.
pub fn take_bytes<P: Suite, S: Store<Id, Holding<P>>>(
    store: &mut S,
    bytes: &[u8],
) -> Result<(), TakeRefusal>
    ensures answer { result ≡ bytes_answer P.suite (S.means store.old) bytes.now }
    ensures after { S.means store.new ≡ bytes_taken P.suite (S.means store.old) bytes.now }
    ensures steady { S.steady store.old store.new }
    ensures length { result ≡ Err Length → store.new ≡ store.old }
    ensures version { result ≡ Err Version → store.new ≡ store.old }
    ensures refused { result ≡ Err NoPlace → S.unaltered store.old store.new }
{
    let named = read_copy::<P>(bytes, Accepted::ShareOrExport)?;
    store.take(named.id, Holding::Held(named.copy))?;
    Ok(())
}
