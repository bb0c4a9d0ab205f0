// What the answers of an archive say.
ghost use Rattle.std.specs.Prelude.{Some};
ghost use Rattle.ratchet.specs.Ids.{id_bytes};
ghost use Rattle.console.specs.Shown.{shown_holding};
ghost use Rattle.script.specs.Words.{hex_word};
ghost use Rattle.copy_bytes.specs.CopyBytes.{copy_bytes};
ghost use Rattle.copy_bytes.specs.declared.named.Version.TheVariants.{Export};

use crate::answers::Hex;
use crate::desk::front;
use copy_bytes::named::{NamedCopy, Version};
use copy_bytes::writing::{write_copy, write_id};
use ratchet::copies::Holding;
use ratchet::ids::Id;
use ratchet::suite::Suite;
use std::fmt;

// An id, as a word. `fmt` has no heap, so its bytes lie in an array.
#[derive(Clone, Copy)]
pub(crate) struct Name(pub(crate) Id);

impl fmt::Display for Name {
    ghost output = { λ name. Some (hex_word (id_bytes name.0)) };

    fn fmt<W: fmt::Write>(&self, f: &mut fmt::Formatter<W>) -> fmt::Result {
        let mut bytes = [0; 32];
        let _ = write_id(self.0, &mut bytes);
        Hex(&bytes).fmt(f)
    }
}

// A part, which is never wider than 1,024 bytes, as a word. `fmt` has no heap, so its bytes lie in an array.
#[derive(Clone, Copy)]
struct Part<P>(P);

impl<P: Suite> fmt::Display for Part<P> {
    ghost output = { λ part. Some (hex_word (P.suite.encode part.0)) };

    fn fmt<W: fmt::Write>(&self, f: &mut fmt::Formatter<W>) -> fmt::Result {
        let mut bytes = [0; 1024];
        let part = &mut bytes[..P::width()];
        self.0.write(part);
        Hex(part).fmt(f)
    }
}

// What is held of a session, each word with a space before it.
#[derive(Clone, Copy)]
pub(crate) struct Shown<P>(pub(crate) Holding<P>);

impl<P: Suite> fmt::Display for Shown<P> {
    ghost output = { λ shown. Some (shown_holding P.suite shown.0) };

    fn fmt<W: fmt::Write>(&self, f: &mut fmt::Formatter<W>) -> fmt::Result {
        match self.0 {
            Holding::Held(copy) => {
                write!(f, " {} {} {}", copy.index, Part(copy.r0), Part(copy.r1))?;
                write!(f, " {} {}", Part(copy.r2), Part(copy.r3))
            }
            Holding::Disputed => write!(f, " disputed"),
        }
    }
}

// The bytes of a copy with the export byte, as a word. They lie in an array too, which has room for the widest parts.
#[derive(Clone, Copy)]
pub(crate) struct Export<P>(pub(crate) NamedCopy<P>);

impl<P: Suite> fmt::Display for Export<P> {
    ghost output = { λ export. Some (hex_word (copy_bytes P.suite Export export.0)) };

    fn fmt<W: fmt::Write>(&self, f: &mut fmt::Formatter<W>) -> fmt::Result {
        let mut bytes = [0; 4133];
        let n = write_copy(Version::Export, &self.0, &mut bytes).map_err(|_| fmt::Error)?;
        Hex(front(&bytes, n)).fmt(f)
    }
}
