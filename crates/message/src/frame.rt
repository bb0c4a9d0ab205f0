ghost use Rattle.std.specs.Prelude.{◌≡◌, ◌<◌, ◌≤◌, length, IfSome};
ghost use Rattle.message.specs.Frame.{keyed, starts, cipher_at, framed, placed, FrameLaws};
ghost use Rattle.message.specs.Numbers.{frame_number};

use crate::varint::read_varint;
use ratchet::suite::Suite;
use std::marker::{Model, PhantomData};

// What a message says before its cipher, and where in its bytes the cipher stands; the tag follows the cipher.
#[derive(Clone, Copy, Debug, PartialEq, Eq)]
pub struct Frame {
    pub index: u32,
    pub from: usize,
    pub size: usize,
}

// A message as a suite P lays it out: its index, and the parts of its bytes. The cipher ends the body.
#[derive(Clone, Debug, Drop)]
pub struct Parts<'a, P: Suite> {
    pub index: u32,
    // All that the tag is of.
    pub body: &'a [u8],
    pub cipher: &'a [u8],
    pub tag: &'a [u8; 8],
    suite: PhantomData<P>,
}

impl<'a, P: Suite> Model for Parts<'a, P> {
    ghost use Rattle.std.specs.Prelude.{◌≡◌, ◌≤◌, true, length};
    ghost use Rattle.message.specs.Frame.{Framed};

    ghost Value = { Framed };

    ghost view = { λ f. record { index = f.index; body = f.body.now; cipher = f.cipher.now; tag = f.tag.now } };

    ghost invariant = { λ f. (P.suite.allowed (length f.cipher.now) ≡ true) × (length f.cipher.now ≤ 4116) };
}

// Why bytes are no message, by its number.
#[derive(Clone, Copy, Debug, PartialEq, Eq)]
pub enum FrameFault {
    Start = 7,
    Index = 8,
    Cipher = 9,
    Length = 10,
}

impl From<FrameFault> for u8 {
    ghost from_gives = { λ r n. n ≡ frame_number r };

    fn from(flaw: FrameFault) -> u8 {
        flaw as u8
    }
}

// The number behind a key byte, and how many bytes it takes.
fn read_keyed(key: u8, bytes: &[u8]) -> Option<(u32, usize)>
    ensures value { result ≡ keyed key bytes.now }
    ensures taken { IfSome result (λ p. (1 ≤ p.1) × (p.1 < length bytes.now) × (128 ≤ p.0 → 2 ≤ p.1)) }
{
    let (first, rest) = bytes.split_first()?;
    if *first != key {
        return None;
    }
    read_varint(rest)
}

fn starts_right<P: Suite>(message: &[u8]) -> bool
    ensures { result ≡ starts P.suite message.now }
{
    message.len() <= 4130 && message.first() == Some(&P::message_byte())
}

// Reads what follows an index that ends at a place.
fn read_cipher<'a, P: Suite>(
    message: &'a [u8],
    index: u32,
    at: usize,
) -> Result<Parts<'a, P>, FrameFault>
    requires within { (3 ≤ at) × (at ≤ length message.now) }
    requires short { length message.now ≤ 4130 }
    ensures { result ≡ cipher_at P.suite message.now index at }
{
    let (n, k) = read_keyed(0x12, &message[at..]).ok_or(FrameFault::Cipher)?;
    let from = at + 1 + k;
    let (cipher, tag) = message[from..]
        .split_last_chunk()
        .ok_or(FrameFault::Cipher)?;
    if cipher.len() != n as usize {
        return Err(FrameFault::Cipher);
    }
    if !P::allows(cipher.len()) {
        return Err(FrameFault::Length);
    }
    let body = &message[..from + cipher.len()];
    Ok(Parts {
        index,
        body,
        cipher,
        tag,
        suite: PhantomData,
    })
}

// Reads a message into its parts.
#[tactic(auto, unfolding(crate::specs::Frame::framed))]
pub fn read_parts<P: Suite>(message: &[u8]) -> Result<Parts<'_, P>, FrameFault>
    ensures { result ≡ framed P.suite message.now }
{
    if !starts_right::<P>(message) {
        return Err(FrameFault::Start);
    }
    let (index, k) = read_keyed(0x08, &message[1..]).ok_or(FrameFault::Index)?;
    read_cipher::<P>(message, index, 2 + k)
}

// Reads a message up to its cipher.
pub fn read_frame<P: Suite>(message: &[u8]) -> Result<Frame, FrameFault>
    ensures { result ≡ placed P.suite message.now }
{
    let parts = read_parts::<P>(message)?;
    let size = parts.cipher.len();
    let from = parts.body.len() - size;
    Ok(Frame {
        index: parts.index,
        from,
        size,
    })
}

// A message is read as it was laid out, and nothing else is read.
pub fn frame_laws<P: Suite>()
    ensures { FrameLaws P.suite }
{}
