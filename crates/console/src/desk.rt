// Answers that are not written out yet, and the memory that calls are offered for their output.
ghost use Rattle.std.specs.Prelude.{◌≡◌, ℕ, ◌<◌, ◌≤◌, List, [], ◌++◌, length, take, IfOk, vec_len, string_bytes, string_len, OnOk};
ghost use Rattle.std.specs.Io.KnownBytes.{Appends};

use std::alloc::{AllocError, Global};
use std::io;
use std::io::Write;

// The most that a call is ever offered.
pub(crate) const MOST_SPACE: usize = 1_048_576;

// So much is gathered before it is written out.
const PIECE: usize = 65_536;

#[derive(Drop)]
pub(crate) struct Desk {
    pub(crate) heap: Global,
    pub(crate) answers: String,
    pub(crate) output: Vec<u8>,
    pub(crate) space: usize,
}

impl Desk {
    ghost use Rattle.console.specs.Lines.{offered};
    ghost use Rattle.console.specs.Walking.{most_space};

    pub(crate) fn new(heap: Global) -> Result<Desk, AllocError>
        ensures { IfOk result (λ d. (string_bytes d.answers ≡ []) × (vec_len d.output ≡ most_space) × (d.space ≡ most_space)) }
    {
        Ok(Desk {
            heap,
            answers: String::new(heap),
            output: vec![in heap; 0; MOST_SPACE]?,
            space: MOST_SPACE,
        })
    }

    // Sets how much of the output a call is offered. The most is there from the start, so nothing is written here.
    pub(crate) fn offer(&mut self, space: usize) -> Result<(), AllocError>
        ensures space { OnOk result (length (offered self.new) ≡ space) }
        ensures output { space ≤ vec_len self.old.output → self.new.output ≡ self.old.output }
        ensures answers { self.new.answers ≡ self.old.answers }
    {
        if self.output.len() < space {
            self.output.resize(space, 0)?;
        }
        self.space = space;
        Ok(())
    }

    pub(crate) fn write_out<W: Write>(&mut self, sink: &mut W) -> io::Result<()>
        ensures sink { OnOk result (Appends (W.contents sink.old) (W.contents sink.new) (string_bytes self.old.answers)) }
        ensures answers { OnOk result (string_bytes self.new.answers ≡ []) }
        ensures output { self.new.output ≡ self.old.output }
        ensures space { self.new.space ≡ self.old.space }
    {
        sink.write_all(self.answers.as_bytes())?;
        self.answers.clear();
        Ok(())
    }

    // Writes out once a piece is gathered.
    pub(crate) fn write_piece<W: Write>(&mut self, sink: &mut W) -> io::Result<()>
        ensures sink { OnOk result ((bs : List ℕ) × Appends (W.contents sink.old) (W.contents sink.new) bs × (string_bytes self.old.answers ≡ bs ++ string_bytes self.new.answers)) }
        ensures answers { OnOk result (string_len self.new.answers < 65536) }
        ensures output { self.new.output ≡ self.old.output }
        ensures space { self.new.space ≡ self.old.space }
    {
        if self.answers.len() < PIECE {
            return Ok(());
        }
        self.write_out(sink)
    }
}

// The first n bytes, or all.
pub(crate) fn front(bytes: &[u8], n: usize) -> &[u8]
    ensures { result.now ≡ take n bytes.now }
{
    bytes.get(..n).unwrap_or(bytes)
}
