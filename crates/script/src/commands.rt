// The commands of a script, read from the words of their lines.
ghost use Rattle.std.specs.Prelude.{◌≡◌, Some, None, MatchResult, codes, decimal};
ghost use Rattle.script.specs.Commands.{spaced, id_word, plan_words, archive_words, call_line, command_line, IsIndex, IsCount, AreBytes, LawfulPlan, LawfulCall, Lawful, Reads};
ghost use Rattle.script.specs.Verbs.{verb_word};
ghost use Rattle.script.specs.Words.{upto, behind, hex_word};

use crate::fault::LineFault;
use crate::verbs::Verb;
use crate::words::{number, read_bytes, split_once};
use copy_bytes::reading::read_id;
use ratchet::ids::Id;
use std::alloc::Global;

// What an archive is made of.
#[derive(Clone, Copy)]
pub struct Plan {
    pub places: usize,
    pub sightings: usize,
    pub floor: u32,
}

// What an archive and its sender are asked.
#[derive(Drop)]
pub enum Call {
    Sender(Id, Vec<u8>),
    Seal(Vec<u8>),
    Share(u32),
    Take(Vec<u8>),
    Dispute(Id),
    Look(Id),
    Next(Option<Id>),
    Open(Id, Vec<u8>),
    Free,
    Floor,
    Advance(Vec<u8>, u32),
}

#[derive(Drop)]
pub enum Command {
    Archive(Plan),
    Space(usize),
    Call(Call),
}

// The number that a word is, below 2^32.
fn read_index(word: &[u8]) -> Result<u32, LineFault>
    ensures { Reads decimal IsIndex word.now result }
{
    number(word).ok_or(LineFault::BadLine)
}

// The same, for places, sightings and space.
#[tactic(auto, using(std::proofs::lemmas::Fmt::decimal_injective))]
fn read_count(word: &[u8]) -> Result<usize, LineFault>
    ensures { Reads decimal IsCount word.now result }
{
    match read_index(word)? {
        n @ 0..=1_048_576 => Ok(n as usize),
        _ => Err(LineFault::BadLine),
    }
}

// An id is 64 hex digits.
// The heap goes with another word each time, so a struct of both would be made anew at each call.
#[tactic(auto, using(copy_bytes::proofs::Ids::bytes_id))]
fn read_name(heap: Global, word: &[u8]) -> Result<Id, LineFault>
    ensures { Reads id_word (λ _. Unit {0}) word.now result }
{
    let bytes = read_bytes(heap, word)?;
    read_id(&bytes).map_err(|_| LineFault::BadLine)
}

// The two parts of what stands behind a command's word.
fn two_words(rest: &[u8]) -> Result<(&[u8], &[u8]), LineFault>
    ensures { MatchResult result (λ both. (rest.now ≡ spaced both.0.now both.1.now) × (both.0.now ≡ upto 32 rest.now) × (behind 32 rest.now ≡ Some both.1.now)) (λ _. behind 32 rest.now ≡ None) }
{
    split_once(rest, b' ').ok_or(LineFault::BadLine)
}

#[tactic(auto, using(crate::proofs::Spaces::first_decimal, crate::proofs::Spaces::rest_decimal))]
fn read_plan(rest: &[u8]) -> Result<Plan, LineFault>
    ensures { Reads plan_words LawfulPlan rest.now result }
{
    let (places, rest) = two_words(rest)?;
    let (sightings, floor) = two_words(rest)?;
    Ok(Plan {
        places: read_count(places)?,
        sightings: read_count(sightings)?,
        floor: read_index(floor)?,
    })
}

// There is one suite and one kind of store so far.
fn read_archive(rest: &[u8]) -> Result<Plan, LineFault>
    ensures { Reads archive_words LawfulPlan rest.now result }
{
    let plan = rest.strip_prefix(b"bench slots ");
    read_plan(plan.ok_or(LineFault::BadLine)?)
}

// An id, and bytes behind it.
#[tactic(auto, using(crate::proofs::Spaces::first_hex, crate::proofs::Spaces::rest_hex))]
fn read_named(heap: Global, rest: &[u8]) -> Result<(Id, Vec<u8>), LineFault>
    ensures { Reads (λ both. spaced (id_word both.0) (hex_word both.1.items)) (λ both. AreBytes both.1) rest.now result }
{
    let (id, bytes) = two_words(rest)?;
    Ok((read_name(heap, id)?, read_bytes(heap, bytes)?))
}

#[tactic(auto, using(crate::proofs::Spaces::first_hex, crate::proofs::Spaces::rest_hex))]
fn read_advance(heap: Global, rest: &[u8]) -> Result<Call, LineFault>
    ensures { Reads call_line LawfulCall (spaced (codes "advance") rest.now) result }
{
    let (copy, target) = two_words(rest)?;
    Ok(Call::Advance(read_bytes(heap, copy)?, read_index(target)?))
}

fn read_next(heap: Global, word: &[u8]) -> Result<Call, LineFault>
    ensures { Reads call_line LawfulCall (spaced (codes "next") word.now) result }
{
    match word {
        b"-" => Ok(Call::Next(None)),
        _ => Ok(Call::Next(Some(read_name(heap, word)?))),
    }
}

// A command that is one word.
fn read_lone(verb: Verb) -> Result<Command, LineFault>
    ensures { Reads command_line Lawful (verb_word verb) result }
{
    match verb {
        Verb::Free => Ok(Command::Call(Call::Free)),
        Verb::Floor => Ok(Command::Call(Call::Floor)),
        _ => Err(LineFault::BadLine),
    }
}

fn read_call(heap: Global, verb: Verb, rest: &[u8]) -> Result<Call, LineFault>
    ensures { Reads call_line LawfulCall (spaced (verb_word verb) rest.now) result }
{
    match verb {
        Verb::Sender => {
            let (id, start) = read_named(heap, rest)?;
            Ok(Call::Sender(id, start))
        }
        Verb::Seal => Ok(Call::Seal(read_bytes(heap, rest)?)),
        Verb::Share => Ok(Call::Share(read_index(rest)?)),
        Verb::Take => Ok(Call::Take(read_bytes(heap, rest)?)),
        Verb::Dispute => Ok(Call::Dispute(read_name(heap, rest)?)),
        Verb::Look => Ok(Call::Look(read_name(heap, rest)?)),
        Verb::Next => read_next(heap, rest),
        Verb::Open => {
            let (id, message) = read_named(heap, rest)?;
            Ok(Call::Open(id, message))
        }
        Verb::Advance => read_advance(heap, rest),
        _ => Err(LineFault::BadLine),
    }
}

fn read_with(heap: Global, verb: Verb, rest: &[u8]) -> Result<Command, LineFault>
    ensures { Reads command_line Lawful (spaced (verb_word verb) rest.now) result }
{
    match verb {
        Verb::Archive => Ok(Command::Archive(read_archive(rest)?)),
        Verb::Space => Ok(Command::Space(read_count(rest)?)),
        _ => Ok(Command::Call(read_call(heap, verb, rest)?)),
    }
}

// The command that a line is.
pub fn read_command(heap: Global, line: &[u8]) -> Result<Command, LineFault>
    ensures { Reads command_line Lawful line.now result }
{
    match split_once(line, b' ') {
        Some((word, rest)) => read_with(heap, Verb::try_from(word)?, rest),
        None => read_lone(Verb::try_from(line)?),
    }
}
