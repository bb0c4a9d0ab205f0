ghost use Rattle.std.specs.Prelude.{◌≡◌};
ghost use Rattle.sending.specs.Sender.{new_sender, current_index, seal_answer, seal_output, after_seal, share_answer, share_output};
ghost use Rattle.sending.specs.Numbers.{seal_number, share_number};

use crate::sealing::write_sealed;
use copy_bytes::named::{CopyFault, NamedCopy, Version};
use copy_bytes::output::SpaceRefusal;
use copy_bytes::reading::read_start;
use copy_bytes::writing::write_copy;
use ratchet::advance::{advance, step};
use ratchet::copies::SessionCopy;
use ratchet::ids::Id;
use ratchet::suite::Suite;
use std::marker::Model;

// A session's own side: it seals one message at each index, and shares the copy at any index that it has reached.
#[derive(Drop)]
pub struct Sender<P: Suite> {
    id: Id,
    start: SessionCopy<P>,
    // What the next message is sealed with; none once the last index is used.
    next: Option<SessionCopy<P>>,
}

impl<P: Suite> Model for Sender<P> {
    ghost use Rattle.std.specs.Prelude.{◌≡◌, ◌^◌, IfSome};
    ghost use Rattle.std.specs.Option.{option_map_or};
    ghost use Rattle.ratchet.specs.Ratchet.{steps};
    ghost use Rattle.ratchet.specs.Suite.{parts};
    ghost use Rattle.sending.specs.Sender.{Session, origin};

    ghost Value = { Session P };

    ghost view = { λ s. record { id = s.id; start = parts s.start; used = option_map_or (λ c. c.index) s.next (2 ^ 32) } };

    // The start has index 0, and the next copy is the start, stepped singly to its index.
    ghost invariant = { λ s. (s.start ≡ origin (parts s.start)) × IfSome s.next (λ c. c ≡ steps P.suite.hash c.index s.start) };
}

// Why a text is not sealed, by its number. Flat, a small output taken over by `From`: a number is a discriminant.
#[derive(Clone, Copy, Debug, PartialEq, Eq)]
pub enum SealRefusal {
    TooSmall = 16,
    TextTooLong = 18,
    Spent = 19,
}

impl From<SealRefusal> for u8 {
    ghost from_gives = { λ r n. n ≡ seal_number r };

    fn from(sealing: SealRefusal) -> u8 {
        sealing as u8
    }
}

// Why a copy is not shared, by its number. Flat, as above.
#[derive(Clone, Copy, Debug, PartialEq, Eq)]
pub enum ShareRefusal {
    TooSmall = 16,
    Ahead = 20,
}

impl From<ShareRefusal> for u8 {
    ghost from_gives = { λ r n. n ≡ share_number r };

    fn from(sharing: ShareRefusal) -> u8 {
        sharing as u8
    }
}

impl From<SpaceRefusal> for SealRefusal {
    ghost use Rattle.std.specs.Prelude.{◌≡◌};
    ghost use Rattle.sending.specs.declared.sender.SealRefusal.TheVariants.{TooSmall};

    ghost from_gives = { λ _ r. r ≡ TooSmall };

    fn from(e: SpaceRefusal) -> SealRefusal {
        match e {
            SpaceRefusal::TooSmall => SealRefusal::TooSmall,
        }
    }
}

impl From<SpaceRefusal> for ShareRefusal {
    ghost use Rattle.std.specs.Prelude.{◌≡◌};
    ghost use Rattle.sending.specs.declared.sender.ShareRefusal.TheVariants.{TooSmall};

    ghost from_gives = { λ _ r. r ≡ TooSmall };

    fn from(e: SpaceRefusal) -> ShareRefusal {
        match e {
            SpaceRefusal::TooSmall => ShareRefusal::TooSmall,
        }
    }
}

impl<P: Suite> Sender<P> {
    // A sender that has sealed nothing, from the bytes of its four parts at index 0.
    #[tactic(auto, using(crate::proofs::Senders::start_origin))]
    pub fn new(id: Id, start: &[u8]) -> Result<Sender<P>, CopyFault>
        ensures { result ≡ new_sender P.suite id start.now }
    {
        let start = read_start(start)?;
        Ok(Sender {
            id,
            start,
            next: Some(start),
        })
    }

    pub fn index(&self) -> u32
        ensures { result ≡ current_index self.now }
    {
        self.next.map_or(u32::MAX, |copy| copy.index)
    }

    // Writes the message of a text at the current index, and steps; at the last index the sender is then spent.
    #[tactic(auto, using(crate::proofs::Senders::next_kept))]
    pub fn seal(&mut self, text: &[u8], out: &mut [u8]) -> Result<usize, SealRefusal>
        ensures value { result ≡ seal_answer P.suite self.old text.now out.old }
        ensures output { out.new ≡ seal_output P.suite self.old text.now out.old }
        ensures after { self.new ≡ after_seal P.suite self.old text.now out.old }
    {
        if text.len() > 4096 {
            return Err(SealRefusal::TextTooLong);
        }
        let current = self.next.ok_or(SealRefusal::Spent)?;
        let size = write_sealed(&current, text, out)?;
        self.next = step(current);
        Ok(size)
    }

    // Writes the copy at an index that the sender has reached, from 0 on.
    pub fn share(&self, index: u32, out: &mut [u8]) -> Result<usize, ShareRefusal>
        ensures value { result ≡ share_answer P.suite self.now index out.old }
        ensures output { out.new ≡ share_output P.suite self.now index out.old }
    {
        if index > self.index() {
            return Err(ShareRefusal::Ahead);
        }
        // No index lies below the start's.
        let copy = advance(self.start, index).map_or(self.start, |there| there.copy);
        let size = write_copy(Version::Share, &NamedCopy { id: self.id, copy }, out)?;
        Ok(size)
    }
}
