ghost use Rattle.std.specs.Prelude.{◌≡◌, ◌*◌, ◌≤◌, length, take, drop};
ghost use Rattle.std.specs.Int.Digits.{number_from_digits};
ghost use Rattle.ratchet.specs.Ids.{word, id_of};
ghost use Rattle.copy_bytes.specs.CopyBytes.{accepts, copy_length, copy_of, named_of, read_copy, read_start, read_id};

use crate::named::{Accepted, CopyFault, NamedCopy};
use crate::writing::copy_length;
use ratchet::copies::SessionCopy;
use ratchet::ids::Id;
use ratchet::suite::Suite;

// The word in the first 8 bytes.
fn word_in(bytes: &[u8]) -> u64
    requires { 8 ≤ length bytes.now }
    ensures { result ≡ word bytes.now }
{
    u64::from_be_bytes(*bytes.first_chunk().unwrap())
}

// The id in the first 32 bytes.
fn id_in(bytes: &[u8]) -> Id
    requires { 32 ≤ length bytes.now }
    ensures { result ≡ id_of bytes.now }
{
    Id {
        w0: word_in(bytes),
        w1: word_in(&bytes[8..]),
        w2: word_in(&bytes[16..]),
        w3: word_in(&bytes[24..]),
    }
}

// The copy whose four parts stand in front.
#[tactic(auto, unfolding(crate::specs::CopyBytes::copy_of))]
fn copy_in<P: Suite>(bytes: &[u8], index: u32) -> SessionCopy<P>
    requires { 4 * P.suite.width ≤ length bytes.now }
    ensures { result ≡ copy_of P.suite index 0 bytes.now }
{
    let w = P::width();
    SessionCopy {
        index,
        r0: P::read(&bytes[..w]),
        r1: P::read(&bytes[w..2 * w]),
        r2: P::read(&bytes[2 * w..3 * w]),
        r3: P::read(&bytes[3 * w..4 * w]),
    }
}

// The index stands behind the version byte.
fn index_in(bytes: &[u8]) -> u32
    requires { 5 ≤ length bytes.now }
    ensures { result ≡ number_from_digits 256 (take 4 (drop 1 bytes.now)) }
{
    u32::from_be_bytes(*bytes[1..].first_chunk().unwrap())
}

#[tactic(auto, unfolding(crate::specs::CopyBytes::named_of, crate::specs::CopyBytes::copy_of))]
fn named_in<P: Suite>(bytes: &[u8]) -> NamedCopy<P>
    requires { length bytes.now ≡ copy_length P.suite }
    ensures { result ≡ named_of P.suite bytes.now }
{
    NamedCopy {
        id: id_in(&bytes[5 + 4 * P::width()..]),
        copy: copy_in(&bytes[5..], index_in(bytes)),
    }
}

fn takes<P: Suite>(accepted: Accepted, byte: u8) -> bool
    ensures { result ≡ accepts P.suite accepted byte }
{
    match accepted {
        Accepted::ShareOrExport => byte == P::share_byte() || byte == P::export_byte(),
        Accepted::Export => byte == P::export_byte(),
    }
}

// The copy that some bytes are, or why they are none.
pub fn read_copy<P: Suite>(bytes: &[u8], accepted: Accepted) -> Result<NamedCopy<P>, CopyFault>
    ensures { result ≡ read_copy P.suite accepted bytes.now }
{
    if bytes.len() != copy_length::<P>() {
        return Err(CopyFault::Length);
    }
    if takes::<P>(accepted, bytes[0]) {
        Ok(named_in(bytes))
    } else {
        Err(CopyFault::Version)
    }
}

// The copy at index 0 whose four parts some bytes are.
pub fn read_start<P: Suite>(bytes: &[u8]) -> Result<SessionCopy<P>, CopyFault>
    ensures { result ≡ read_start P.suite bytes.now }
{
    if bytes.len() == 4 * P::width() {
        Ok(copy_in(bytes, 0))
    } else {
        Err(CopyFault::Length)
    }
}

// The id that some bytes are.
pub fn read_id(bytes: &[u8]) -> Result<Id, CopyFault>
    ensures { result ≡ read_id bytes.now }
{
    if bytes.len() == 32 {
        Ok(id_in(bytes))
    } else {
        Err(CopyFault::Length)
    }
}
