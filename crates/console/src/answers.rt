// The words of the lines that are printed.
ghost use Rattle.std.specs.Prelude.{◌≤◌, ◌++◌, length, Some, codes, decimal};
ghost use Rattle.std.specs.Fmt.{WritesOnOk};
ghost use Rattle.script.specs.Words.{hex, hex_word};

use hex::encode_to_slice;
use std::{fmt, str};

// So many bytes are written at once: a write for each byte takes several times as long.
const FEW: usize = 64;

fn write_few<W: fmt::Write>(bytes: &[u8], f: &mut fmt::Formatter<W>) -> fmt::Result
    requires { length bytes.now ≤ 64 }
    ensures { WritesOnOk W.write_str_gives f.old result (hex bytes.now) f.new }
{
    let mut digits = [0; 2 * FEW];
    let pairs = &mut digits[..2 * bytes.len()];
    encode_to_slice(bytes, pairs).map_err(|_| fmt::Error)?;
    f.write_str(str::from_utf8(pairs).map_err(|_| fmt::Error)?)
}

fn write_pairs<W: fmt::Write>(bytes: &[u8], f: &mut fmt::Formatter<W>) -> fmt::Result
    ensures { WritesOnOk W.write_str_gives f.old result (hex bytes.now) f.new }
{
    for piece in bytes.chunks(FEW) {
        write_few(piece, f)?;
    }
    Ok(())
}

// Bytes in hex, `-` for none.
#[derive(Clone, Copy)]
pub(crate) struct Hex<'a>(pub(crate) &'a [u8]);

impl<'a> fmt::Display for Hex<'a> {
    ghost output = { λ h. Some (hex_word h.0.now) };

    fn fmt<W: fmt::Write>(&self, f: &mut fmt::Formatter<W>) -> fmt::Result {
        match self.0 {
            [] => write!(f, "-"),
            bytes => write_pairs(bytes, f),
        }
    }
}

// A refusal of any call, by its number.
#[derive(Clone, Copy)]
pub(crate) struct Refusal(u8);

impl Refusal {
    pub(crate) fn of<R: Into<u8>>(refusal: R) -> Refusal
        ensures { R.converts refusal result.0 }
    {
        Refusal(refusal.into())
    }
}

impl fmt::Display for Refusal {
    ghost output = { λ refusal. Some (codes "refused " ++ decimal refusal.0) };

    fn fmt<W: fmt::Write>(&self, f: &mut fmt::Formatter<W>) -> fmt::Result {
        write!(f, "refused {}", self.0)
    }
}
