// The words of a line: what they are, and the numbers and bytes that they write.
ghost use Rattle.std.specs.Prelude.{◌≡◌, ℕ, ◌<◌, ◌^◌, ◌/◌, ◌%◌, [], ◌∷◌, ◌++◌, length, Some, None, MatchOption, MatchResult, ◌≢◌, ◌↔◌, IsTrue, slice_index, decimal, List};
ghost use Rattle.std.specs.List.{AllByRecursion};
ghost use Rattle.ratchet.specs.Bytes.{Byte};
ghost use Rattle.script.specs.declared.fault.LineFault.TheVariants.{BadLine};
ghost use Rattle.script.specs.Words.{upto, behind, IsPlain, hex_digit, hex, hex_word};

use crate::fault::LineFault;
use std::alloc::Global;
use std::str;

// Where the first separator stands.
fn place_of(bytes: &[u8], separator: u8) -> Option<usize>
    ensures { MatchOption result ((k : ℕ) → k < length bytes.now → slice_index bytes.now k ≢ separator) (λ n. (n < length bytes.now) × (slice_index bytes.now n ≡ separator) × ((k : ℕ) → k < n → slice_index bytes.now k ≢ separator)) }
{
    bytes.iter().position(|b| *b == separator)
}

// What stands before the first separator and behind it, if there is one.
pub(crate) fn split_once(bytes: &[u8], separator: u8) -> Option<(&[u8], &[u8])>
    ensures cut { MatchOption result (behind separator bytes.now ≡ None) (λ cut. (cut.0.now ≡ upto separator bytes.now) × (behind separator bytes.now ≡ Some cut.1.now)) }
    ensures whole { MatchOption result (upto separator bytes.now ≡ bytes.now) (λ cut. bytes.now ≡ cut.0.now ++ (separator ∷ cut.1.now)) }
{
    let n = place_of(bytes, separator)?;
    Some((&bytes[..n], &bytes[n + 1..]))
}

// No sign, and no zero before other digits.
fn is_plain(word: &[u8]) -> bool
    ensures { IsTrue result ↔ IsPlain word.now }
{
    !matches!(word, [b'+', ..] | [b'0', _, ..])
}

// The number below 2^32 that is written so.
pub(crate) fn number(word: &[u8]) -> Option<u32>
    ensures { MatchOption result ((n : ℕ) → n < 2 ^ 32 → word.now ≢ decimal n) (λ n. word.now ≡ decimal n) }
{
    if !is_plain(word) {
        return None;
    }
    str::from_utf8(word).ok()?.parse().ok()
}

// The number that a hex digit is, in lower case; the library's `to_digit` takes upper case too.
fn nibble_of(c: u8) -> Option<u8>
    ensures { MatchOption result ((n : ℕ) → n < 16 → c ≢ hex_digit n) (λ n. (n < 16) × (c ≡ hex_digit n)) }
{
    match c {
        b'0'..=b'9' => Some(c - b'0'),
        b'a'..=b'f' => Some(c - b'a' + 10),
        _ => None,
    }
}

fn byte_of(high: u8, low: u8) -> Option<u8>
    ensures { MatchOption result ((b : ℕ) → Byte b → high ≡ hex_digit (b / 16) → low ≢ hex_digit (b % 16)) (λ b. Byte b × (high ≡ hex_digit (b / 16)) × (low ≡ hex_digit (b % 16))) }
{
    Some(nibble_of(high)? * 16 + nibble_of(low)?)
}

fn read_pairs(heap: Global, word: &[u8]) -> Result<Vec<u8>, LineFault>
    ensures { MatchResult result (λ v. (word.now ≡ hex v.items) × AllByRecursion Byte v.items) (λ e. (e ≡ BadLine → (bs : List ℕ) → AllByRecursion Byte bs → word.now ≢ hex bs)) }
{
    let mut read = Vec::new(heap);
    let mut rest = word;
    while let [high, low, tail @ ..] = rest {
        read.push(byte_of(*high, *low).ok_or(LineFault::BadLine)?)?;
        rest = tail;
    }
    if rest.is_empty() {
        Ok(read)
    } else {
        Err(LineFault::BadLine)
    }
}

// The bytes that a word is, `-` for none.
pub(crate) fn read_bytes(heap: Global, word: &[u8]) -> Result<Vec<u8>, LineFault>
    ensures { MatchResult result (λ v. (word.now ≡ hex_word v.items) × AllByRecursion Byte v.items) (λ e. (e ≡ BadLine → (bs : List ℕ) → AllByRecursion Byte bs → word.now ≢ hex_word bs)) }
{
    match word {
        [] => Err(LineFault::BadLine),
        b"-" => Ok(Vec::new(heap)),
        _ => read_pairs(heap, word),
    }
}
