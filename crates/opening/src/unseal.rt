ghost use Rattle.std.specs.Prelude.{◌≡◌, ◌≤◌, IfOk};
ghost use Rattle.opening.specs.Open.{frame_refusal, advance_refusal, held_at, checked, unsealed, told, text_over};
ghost use Rattle.opening.specs.Numbers.{open_number};

use message::frame::{FrameFault, Parts, read_parts};
use ratchet::advance::advance;
use ratchet::copies::{AdvanceRefusal, Advanced, Holding};
use ratchet::suite::Suite;

// What an opened message tells: the length of its text, its index, and the hashes from the shown copy to it.
// The text itself lies in the memory that the caller lends: by the rules a call tells its length.
#[derive(Clone, Copy, Debug, PartialEq, Eq)]
pub struct Opened {
    pub size: usize,
    pub index: u32,
    pub hashes: u32,
}

// Why a message is not opened, by its number. Flat, the lower layers' reasons taken over by `From`: a number is a discriminant.
#[derive(Clone, Copy, Debug, PartialEq, Eq)]
pub enum OpenRefusal {
    Start = 7,
    Index = 8,
    Cipher = 9,
    Length = 10,
    Absent = 11,
    Disputed = 12,
    Early = 13,
    Tag = 14,
    Text = 15,
    TooSmall = 16,
}

impl From<OpenRefusal> for u8 {
    ghost from_gives = { λ r n. n ≡ open_number r };

    fn from(reason: OpenRefusal) -> u8 {
        reason as u8
    }
}

impl From<FrameFault> for OpenRefusal {
    ghost from_gives = { λ e r. r ≡ frame_refusal e };

    fn from(e: FrameFault) -> OpenRefusal {
        match e {
            FrameFault::Start => OpenRefusal::Start,
            FrameFault::Index => OpenRefusal::Index,
            FrameFault::Cipher => OpenRefusal::Cipher,
            FrameFault::Length => OpenRefusal::Length,
        }
    }
}

impl From<AdvanceRefusal> for OpenRefusal {
    ghost from_gives = { λ e r. r ≡ advance_refusal e };

    fn from(e: AdvanceRefusal) -> OpenRefusal {
        match e {
            AdvanceRefusal::TargetBelow => OpenRefusal::Early,
        }
    }
}

// The shown copy, advanced to an index.
fn held_at<P: Suite>(shown: Option<Holding<P>>, index: u32) -> Result<Advanced<P>, OpenRefusal>
    ensures { result ≡ held_at P.suite shown index }
{
    match shown {
        Some(Holding::Held(copy)) => Ok(advance(copy, index)?),
        Some(Holding::Disputed) => Err(OpenRefusal::Disputed),
        None => Err(OpenRefusal::Absent),
    }
}

// Checks the tag, and then deciphers into a scratch.
fn check<P: Suite>(
    frame: &Parts<P>,
    there: &Advanced<P>,
    scratch: &mut [u8; 4111],
) -> Result<Opened, OpenRefusal>
    ensures value { result ≡ told (checked P.suite frame.now there.now) }
    ensures after { scratch.new ≡ text_over (checked P.suite frame.now there.now) scratch.old }
    ensures fits { IfOk result (λ o. o.size ≤ 4111) }
{
    if P::tag(&there.copy, frame.body) != *frame.tag {
        return Err(OpenRefusal::Tag);
    }
    let size = P::decipher(&there.copy, frame.cipher, scratch).ok_or(OpenRefusal::Text)?;
    Ok(Opened {
        size,
        index: frame.index,
        hashes: there.hashes,
    })
}

// Opens a message by what is shown of its session, into a scratch.
#[tactic(auto, unfolding(crate::specs::Open::unsealed))]
pub fn unseal<P: Suite>(
    shown: Option<Holding<P>>,
    message: &[u8],
    scratch: &mut [u8; 4111],
) -> Result<Opened, OpenRefusal>
    ensures value { result ≡ told (unsealed P.suite shown message.now) }
    ensures after { scratch.new ≡ text_over (unsealed P.suite shown message.now) scratch.old }
    ensures fits { IfOk result (λ o. o.size ≤ 4111) }
{
    let frame = read_parts(message)?;
    let there = held_at(shown, frame.index)?;
    check(&frame, &there, scratch)
}
