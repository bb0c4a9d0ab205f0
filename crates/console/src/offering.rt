// Calls that are offered the front of the output, as much as the space says.
// Functions over the output, since a part of a field behind a `&mut` is lent with no generated proof.
ghost use Rattle.std.specs.Prelude.{◌≡◌, take, drop};
ghost use Rattle.ratchet.specs.Ids.{id_number};
ghost use Rattle.store.specs.Meaning.{looked};
ghost use Rattle.opening.specs.Open.{unsealed, opened, open_output};
ghost use Rattle.sending.specs.Sender.{seal_answer, seal_output, after_seal, share_answer, share_output};

use opening::open::open;
use opening::unseal::{OpenRefusal, Opened};
use ratchet::copies::Holding;
use ratchet::ids::Id;
use ratchet::suite::Suite;
use sending::sender::{SealRefusal, Sender, ShareRefusal};
use store::meaning::Store;

#[tactic(auto, using(crate::proofs::Offered::front_is, crate::proofs::Offered::front_after, crate::proofs::Offered::rest_after))]
pub(crate) fn seal_within<P: Suite>(
    sender: &mut Sender<P>,
    text: &[u8],
    output: &mut [u8],
    space: usize,
) -> Result<usize, SealRefusal>
    ensures value { result ≡ seal_answer P.suite sender.old text.now (take space output.old) }
    ensures output { take space output.new ≡ seal_output P.suite sender.old text.now (take space output.old) }
    ensures rest { drop space output.new ≡ drop space output.old }
    ensures sender { sender.new ≡ after_seal P.suite sender.old text.now (take space output.old) }
{
    let n = space.min(output.len());
    sender.seal(text, &mut output[..n])
}

#[tactic(auto, using(crate::proofs::Offered::front_is, crate::proofs::Offered::front_after, crate::proofs::Offered::rest_after))]
pub(crate) fn share_within<P: Suite>(
    sender: &Sender<P>,
    index: u32,
    output: &mut [u8],
    space: usize,
) -> Result<usize, ShareRefusal>
    ensures value { result ≡ share_answer P.suite sender.now index (take space output.old) }
    ensures output { take space output.new ≡ share_output P.suite sender.now index (take space output.old) }
    ensures rest { drop space output.new ≡ drop space output.old }
{
    let n = space.min(output.len());
    sender.share(index, &mut output[..n])
}

#[tactic(auto, using(crate::proofs::Offered::front_is, crate::proofs::Offered::front_after, crate::proofs::Offered::rest_after))]
pub(crate) fn open_within<P: Suite, S: Store<Id, Holding<P>>>(
    store: &S,
    id: Id,
    message: &[u8],
    output: &mut [u8],
    space: usize,
) -> Result<Opened, OpenRefusal>
    ensures value { result ≡ opened (unsealed P.suite (looked id_number (S.means store.now) id) message.now) (take space output.old) }
    ensures output { take space output.new ≡ open_output (unsealed P.suite (looked id_number (S.means store.now) id) message.now) (take space output.old) }
    ensures rest { drop space output.new ≡ drop space output.old }
{
    let n = space.min(output.len());
    open(store, id, message, &mut output[..n])
}
