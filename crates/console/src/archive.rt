// An archive and its sender, and what they answer to the calls of a script.
ghost use Rattle.std.specs.Prelude.{◌≡◌, ◌++◌, codes, string_bytes, OnOk};
ghost use Rattle.copy_bytes.specs.declared.named.Accepted.TheVariants.{ShareOrExport};
ghost use Rattle.copy_bytes.specs.CopyBytes.{read_copy};
ghost use Rattle.opening.specs.Open.{unsealed, open_output};
ghost use Rattle.ratchet.specs.declared.copies.Holding.TheVariants.{Disputed};
ghost use Rattle.ratchet.specs.Ids.{id_number};
ghost use Rattle.ratchet.specs.Join.{join, raised};
ghost use Rattle.store.specs.Meaning.{looked, nexted, taken};
ghost use Rattle.intake.specs.Taking.{bytes_taken};
ghost use Rattle.sending.specs.Sender.{new_sender, seal_output, after_seal, share_output};
ghost use Rattle.console.specs.Fronts.{written_front, opened_front, moved_words};
ghost use Rattle.console.specs.Lines.{Adds, Says, offered, KeepsRest, accepted, sender_line, seal_line, share_line, take_line, dispute_line, look_line, next_line, open_line, free_line, floor_line, advance_words, advance_line};
ghost use Rattle.console.specs.Serving.{sender_now};

use crate::answers::{Hex, Refusal};
use crate::desk::{Desk, front};
use crate::offering::{open_within, seal_within, share_within};
use crate::printing::{Export, Name, Shown};
use crate::walk::Serves;
use copy_bytes::named::{Accepted, NamedCopy};
use copy_bytes::reading::read_copy;
use intake::taking::take_bytes;
use opening::open::open;
use opening::unseal::{OpenRefusal, Opened};
use ratchet::advance::advance;
use ratchet::copies::Holding;
use ratchet::ids::Id;
use ratchet::suite::Suite;
use script::commands::Call;
use script::fault::LineFault;
use sending::sender::Sender;
use std::alloc::AllocError;
use store::meaning::Store;

#[derive(Drop)]
pub(crate) struct Archive<S, P: Suite> {
    pub(crate) store: S,
    pub(crate) sender: Option<Sender<P>>,
}

// A call's word before its refusal, since no refusal knows the call.
fn add_taken(out: &mut String, word: &str, taken: Result<(), Refusal>) -> Result<(), AllocError>
    ensures { OnOk result (string_bytes out.new ≡ string_bytes out.old ++ (word.now ++ accepted (λ r. r.0) taken)) }
{
    out.push_str(word)?;
    match taken {
        Ok(()) => Ok(()),
        Err(refusal) => write!(out, " {refusal}"),
    }
}

// A call's word before what it wrote to the output, or before its refusal.
fn add_written(
    desk: &mut Desk,
    word: &str,
    written: Result<usize, Refusal>,
) -> Result<(), AllocError>
    ensures line { OnOk result (Adds desk.old (word.now ++ written_front written (offered desk.old)) desk.new) }
    ensures output { (desk.new.output ≡ desk.old.output) × (desk.new.space ≡ desk.old.space) }
{
    let offered = front(&desk.output, desk.space);
    desk.answers.push_str(word)?;
    match written {
        Ok(n) => write!(desk.answers, " {}", Hex(front(offered, n))),
        Err(refusal) => write!(desk.answers, " {refusal}"),
    }
}

// A message that was opened: its index, the hashes of the advance, and the text in front of the output.
#[tactic(auto, unfolding(crate::specs::Fronts::opened_front))]
fn add_opened(desk: &mut Desk, opened: Result<Opened, OpenRefusal>) -> Result<(), AllocError>
    ensures line { OnOk result (Adds desk.old (codes "open" ++ opened_front opened (offered desk.old)) desk.new) }
    ensures output { (desk.new.output ≡ desk.old.output) × (desk.new.space ≡ desk.old.space) }
{
    let offered = front(&desk.output, desk.space);
    match opened {
        Ok(opened) => {
            let text = Hex(front(offered, opened.size));
            write!(
                desk.answers,
                "open {} {} {text}",
                opened.index, opened.hashes
            )
        }
        Err(refusal) => write!(desk.answers, "open {}", Refusal::of(refusal)),
    }
}

// The hashes to a target, and the copy there.
fn moved<P: Suite>(bytes: &[u8], target: u32) -> Result<(u32, NamedCopy<P>), Refusal>
    ensures { advance_words P.suite (read_copy P.suite ShareOrExport bytes.now) target ≡ moved_words P.suite result }
{
    let named = read_copy(bytes, Accepted::ShareOrExport).map_err(Refusal::of)?;
    let there = advance(named.copy, target).map_err(Refusal::of)?;
    Ok((
        there.hashes,
        NamedCopy {
            id: named.id,
            copy: there.copy,
        },
    ))
}

impl<P: Suite, S: Store<Id, Holding<P>>> Archive<S, P> {
    fn take(&mut self, copy: &[u8], desk: &mut Desk) -> Result<(), AllocError>
        ensures says { OnOk result (Says desk.old (take_line P.suite (S.means self.old.store) copy.now) desk.new) }
        ensures store { S.means self.new.store ≡ bytes_taken P.suite (S.means self.old.store) copy.now }
        ensures sender { self.new.sender ≡ self.old.sender }
    {
        let taken = take_bytes(&mut self.store, copy).map_err(Refusal::of);
        add_taken(&mut desk.answers, "take", taken)
    }

    fn dispute(&mut self, id: Id, desk: &mut Desk) -> Result<(), AllocError>
        ensures says { OnOk result (Says desk.old (dispute_line P.suite (S.means self.old.store) id) desk.new) }
        ensures store { S.means self.new.store ≡ taken id_number (join P.suite) (raised P.suite) (S.means self.old.store) id Disputed }
        ensures sender { self.new.sender ≡ self.old.sender }
    {
        let taken = self.store.take(id, Holding::Disputed);
        add_taken(&mut desk.answers, "dispute", taken.map_err(Refusal::of))
    }

    fn look(&self, id: Id, desk: &mut Desk) -> Result<(), AllocError>
        ensures { OnOk result (Says desk.old (look_line P.suite (looked id_number (S.means self.now.store) id)) desk.new) }
    {
        match self.store.look(id) {
            Some(holding) => write!(desk.answers, "look{}", Shown(holding)),
            None => write!(desk.answers, "look none"),
        }
    }

    fn next(&self, last: Option<Id>, desk: &mut Desk) -> Result<(), AllocError>
        ensures { OnOk result (Says desk.old (next_line P.suite (nexted id_number (S.means self.now.store) last)) desk.new) }
    {
        match self.store.next(&last) {
            Some((id, holding)) => write!(desk.answers, "next {}{}", Name(id), Shown(holding)),
            None => write!(desk.answers, "next none"),
        }
    }

    fn open(&self, id: Id, message: &[u8], desk: &mut Desk) -> Result<(), AllocError>
        ensures line { OnOk result (Adds desk.old (open_line P.suite (S.means self.now.store) id message.now (offered desk.old)) desk.new) }
        ensures output { OnOk result (offered desk.new ≡ open_output (unsealed P.suite (looked id_number (S.means self.now.store) id) message.now) (offered desk.old)) }
        ensures rest { KeepsRest desk.old desk.new }
    {
        let opened = open_within(&self.store, id, message, &mut desk.output, desk.space);
        add_opened(desk, opened)
    }

    fn free(&self, desk: &mut Desk) -> Result<(), AllocError>
        ensures { OnOk result (Says desk.old (free_line (S.means self.now.store)) desk.new) }
    {
        write!(desk.answers, "free {}", self.store.free())
    }

    fn floor(&self, desk: &mut Desk) -> Result<(), AllocError>
        ensures { OnOk result (Says desk.old (floor_line (S.means self.now.store)) desk.new) }
    {
        write!(desk.answers, "floor {}", self.store.floor())
    }

    // The space limits no advance, which writes no output.
    fn advance(&self, bytes: &[u8], target: u32, desk: &mut Desk) -> Result<(), AllocError>
        ensures { OnOk result (Says desk.old (advance_line P.suite bytes.now target) desk.new) }
    {
        desk.answers.push_str("advance")?;
        match moved::<P>(bytes, target) {
            Ok((hashes, named)) => write!(desk.answers, " {hashes} {}", Export(named)),
            Err(refusal) => write!(desk.answers, " {refusal}"),
        }
    }

    fn start(&mut self, id: Id, start: &[u8], desk: &mut Desk) -> Result<(), AllocError>
        ensures says { OnOk result (Says desk.old (sender_line P.suite id start.now) desk.new) }
        ensures sender { OnOk result (self.new.sender ≡ sender_now self.old.sender (new_sender P.suite id start.now)) }
        ensures store { self.new.store ≡ self.old.store }
    {
        desk.answers.push_str("sender")?;
        match Sender::new(id, start) {
            Ok(sender) => {
                write!(desk.answers, " {}", sender.index())?;
                self.sender = Some(sender);
                Ok(())
            }
            Err(fault) => write!(desk.answers, " {}", Refusal::of(fault)),
        }
    }
}

// What a sender answers.
fn seal<P: Suite>(sender: &mut Sender<P>, text: &[u8], desk: &mut Desk) -> Result<(), AllocError>
    ensures line { OnOk result (Adds desk.old (seal_line P.suite sender.old text.now (offered desk.old)) desk.new) }
    ensures output { offered desk.new ≡ seal_output P.suite sender.old text.now (offered desk.old) }
    ensures rest { KeepsRest desk.old desk.new }
    ensures sender { sender.new ≡ after_seal P.suite sender.old text.now (offered desk.old) }
{
    let written = seal_within(sender, text, &mut desk.output, desk.space);
    add_written(desk, "seal", written.map_err(Refusal::of))
}

fn share<P: Suite>(sender: &Sender<P>, index: u32, desk: &mut Desk) -> Result<(), AllocError>
    ensures line { OnOk result (Adds desk.old (share_line P.suite sender.now index (offered desk.old)) desk.new) }
    ensures output { offered desk.new ≡ share_output P.suite sender.now index (offered desk.old) }
    ensures rest { KeepsRest desk.old desk.new }
{
    let written = share_within(sender, index, &mut desk.output, desk.space);
    add_written(desk, "share", written.map_err(Refusal::of))
}

impl<P: Suite, S: Store<Id, Holding<P>>> Serves for Archive<S, P> {
    ghost use Rattle.std.specs.Prelude.{◌≡◌};
    ghost use Rattle.console.specs.Serving.{said, after};

    ghost says = { λ a out. said P.suite (record { store = S.means a.store; sender = a.sender; output = out }) };

    ghost leaves = { λ a out call b new. record { store = S.means b.store; sender = b.sender; output = new } ≡ after P.suite (record { store = S.means a.store; sender = a.sender; output = out }) call };

    fn serve(&mut self, call: Call, desk: &mut Desk) -> Result<(), LineFault> {
        match call {
            Call::Sender(id, start) => self.start(id, &start, desk)?,
            Call::Seal(text) => {
                let sender = self.sender.as_mut().ok_or(LineFault::BadLine)?;
                seal(sender, &text, desk)?
            }
            Call::Share(index) => {
                let sender = self.sender.as_ref().ok_or(LineFault::BadLine)?;
                share(sender, index, desk)?
            }
            Call::Take(copy) => self.take(&copy, desk)?,
            Call::Dispute(id) => self.dispute(id, desk)?,
            Call::Look(id) => self.look(id, desk)?,
            Call::Next(last) => self.next(last, desk)?,
            Call::Open(id, message) => self.open(id, &message, desk)?,
            Call::Free => self.free(desk)?,
            Call::Floor => self.floor(desk)?,
            Call::Advance(copy, target) => self.advance(&copy, target, desk)?,
        }
        Ok(desk.answers.push('\n')?)
    }
}

// Before the first archive nobody serves.
#[derive(Clone, Copy)]
pub(crate) struct NoArchive;

impl Serves for NoArchive {
    ghost use Rattle.std.specs.Prelude.{◌≡◌, None};

    ghost says = { λ _ _ _. None };

    ghost leaves = { λ a out _ b new. (b ≡ a) × (new ≡ out) };

    fn serve(&mut self, _call: Call, _desk: &mut Desk) -> Result<(), LineFault> {
        Err(LineFault::BadLine)
    }
}
