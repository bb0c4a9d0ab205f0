ghost use Rattle.std.specs.Prelude.{◌≡◌, fold, refl};
ghost use Rattle.bench_suite.specs.Bench.{hashed, mixed, bench};
ghost use Rattle.bench_suite.specs.Laws.{bench_lawful};

use crate::word::Word;
use ratchet::copies::{Level, SessionCopy};
use ratchet::suite::Suite;

// The hash of a part's number by the level with the number j.
fn hash_number(value: u64, j: u64) -> u64
    ensures { result ≡ hashed j value }
{
    value.rotate_left(7).wrapping_add(0x9E37_79B9_7F4A_7C15) ^ j
}

// Takes each byte in turn into the tag, by the `for` over the bytes that the project asks for.
fn fold_tag(start: u64, bytes: &[u8]) -> u64
    ensures { result ≡ fold mixed start bytes.now }
{
    let mut tag = start;
    for b in bytes {
        tag = tag.rotate_left(5).wrapping_add(u64::from(*b));
    }
    tag
}

impl Suite for Word {
    ghost suite = { bench };

    ghost compares = { λ p q. refl };

    ghost lawful = { bench_lawful };

    fn width() -> usize {
        8
    }

    fn message_byte() -> u8 {
        0x43
    }

    fn share_byte() -> u8 {
        0x42
    }

    fn export_byte() -> u8 {
        0x41
    }

    fn hashed(self, level: Level) -> Word {
        Word {
            value: hash_number(self.value, level as u64),
        }
    }

    fn write(self, out: &mut [u8]) {
        out.copy_from_slice(&self.value.to_be_bytes());
    }

    fn read(bytes: &[u8]) -> Word {
        Word {
            value: u64::from_be_bytes(bytes.try_into().unwrap()),
        }
    }

    fn allows(n: usize) -> bool {
        n <= 4096
    }

    fn tag(copy: &SessionCopy<Word>, bytes: &[u8]) -> [u8; 8] {
        let start = copy.r0.value ^ copy.r1.value ^ copy.r2.value ^ copy.r3.value;
        fold_tag(start, bytes).to_be_bytes()
    }

    fn encipher(_copy: &SessionCopy<Word>, text: &[u8], out: &mut [u8]) -> usize {
        let n = text.len();
        out[..n].copy_from_slice(text);
        n
    }

    fn decipher(_copy: &SessionCopy<Word>, cipher: &[u8], out: &mut [u8]) -> Option<usize> {
        let n = cipher.len();
        out[..n].copy_from_slice(cipher);
        Some(n)
    }
}
