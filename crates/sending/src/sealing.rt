ghost use Rattle.std.specs.Prelude.{◌≡◌, ◌+◌, ◌≤◌, ◌++◌, length};
ghost use Rattle.copy_bytes.specs.Output.{Fills};
ghost use Rattle.copy_bytes.specs.Placed.{Put};
ghost use Rattle.message.specs.Frame.{head};
ghost use Rattle.message.specs.Seal.{tagged, sealed};
ghost use Rattle.message.specs.Varint.{varint};

use copy_bytes::output::SpaceRefusal;
use ratchet::copies::SessionCopy;
use ratchet::suite::Suite;

// Writes at a place, and answers the place behind it.
// Like copy_bytes's own: one for both would be public, so would have to test the place and could fail, where a head and a varint cannot.
#[tactic(auto, using(copy_bytes::proofs::Places::placed_part))]
fn put_at(bytes: &[u8], out: &mut [u8], at: usize) -> usize
    requires { at + length bytes.now ≤ length out.old }
    ensures { Put at bytes.now out.old result out.new }
{
    let end = at + bytes.len();
    out[at..end].copy_from_slice(bytes);
    end
}

// Writes the shortest form of a number.
#[tactic(auto, using(crate::proofs::Varints::varint_last, crate::proofs::Varints::varint_more))]
fn put_varint(v: u32, out: &mut [u8], at: usize) -> usize
    requires { at + length (varint v) ≤ length out.old }
    ensures { Put at (varint v) out.old result out.new }
{
    if v < 128 {
        return put_at(&[v as u8], out, at);
    }
    let next = put_at(&[(v % 128) as u8 + 128], out, at);
    put_varint(v / 128, out, next)
}

// Writes what stands before a cipher of n bytes.
#[tactic(auto, using(crate::proofs::Seals::varint_size))]
fn write_head<P: Suite>(index: u32, n: u32, out: &mut [u8; 13]) -> usize
    ensures { Put 0 (head P.suite index n) out.old result out.new }
{
    let a = put_at(&[P::message_byte(), 0x08], out, 0);
    let b = put_varint(index, out, a);
    let c = put_at(&[0x12], out, b);
    put_varint(n, out, c)
}

// Writes the parts of a message and then its tag.
#[tactic(auto, using(crate::proofs::Seals::length_tagged, copy_bytes::proofs::Places::too_small))]
fn write_parts<P: Suite>(
    copy: &SessionCopy<P>,
    front: &[u8],
    cipher: &[u8],
    out: &mut [u8],
) -> Result<usize, SpaceRefusal>
    requires { length front.now + length cipher.now ≤ 4125 }
    ensures { Fills (tagged P.suite copy.now (front.now ++ cipher.now)) out.old result out.new }
{
    if out.len() < front.len() + cipher.len() + 8 {
        return Err(SpaceRefusal::TooSmall);
    }
    let a = put_at(front, out, 0);
    let b = put_at(cipher, out, a);
    let tag = P::tag(copy, &out[..b]);
    Ok(put_at(&tag, out, b))
}

// Writes the message that a copy seals for a text.
#[tactic(auto, using(copy_bytes::proofs::Outputs::put_front, copy_bytes::proofs::Outputs::laid_front), unfolding(message::specs::Seal::sealed))]
pub(crate) fn write_sealed<P: Suite>(
    copy: &SessionCopy<P>,
    text: &[u8],
    out: &mut [u8],
) -> Result<usize, SpaceRefusal>
    requires { length text.now ≤ 4096 }
    ensures { Fills (sealed P.suite copy.now text.now) out.old result out.new }
{
    // Both are as long as they may get, with their length beside: nothing here is allocated.
    let mut cipher = [0; 4112];
    let n = P::encipher(copy, text, &mut cipher);
    let mut front = [0; 13];
    let size = write_head::<P>(copy.index, n as u32, &mut front);
    write_parts(copy, &front[..size], &cipher[..n], out)
}
