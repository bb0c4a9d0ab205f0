ghost use Rattle.std.specs.Prelude.{◌≡◌};
ghost use Rattle.ratchet.specs.Ids.{id_number};
ghost use Rattle.store.specs.Meaning.{looked};
ghost use Rattle.opening.specs.Open.{space_refusal, unsealed, opened, open_output};

use crate::unseal::{OpenRefusal, Opened, unseal};
use copy_bytes::output::{SpaceRefusal, put};
use ratchet::copies::Holding;
use ratchet::ids::Id;
use ratchet::suite::Suite;
use store::meaning::Store;

impl From<SpaceRefusal> for OpenRefusal {
    ghost from_gives = { λ e r. r ≡ space_refusal e };

    fn from(e: SpaceRefusal) -> OpenRefusal {
        match e {
            SpaceRefusal::TooSmall => OpenRefusal::TooSmall,
        }
    }
}

// Opens a message by the copy that a store shows of its session, and writes the text.
pub fn open<P: Suite, S: Store<Id, Holding<P>>>(
    store: &S,
    id: Id,
    message: &[u8],
    out: &mut [u8],
) -> Result<Opened, OpenRefusal>
    ensures value { result ≡ opened (unsealed P.suite (looked id_number (S.means store.now) id) message.now) out.old }
    ensures after { out.new ≡ open_output (unsealed P.suite (looked id_number (S.means store.now) id) message.now) out.old }
{
    // An array with the length told beside it, since the library allocates nothing.
    let mut scratch = [0; 4111];
    let told = unseal(store.look(id), message, &mut scratch)?;
    put(&scratch[..told.size], out)?;
    Ok(told)
}
