ghost use Rattle.std.specs.Prelude.{◌≡◌, ◌≤◌, true, length};
ghost use Rattle.ratchet.specs.Bytes.{laid};
ghost use Rattle.ratchet.specs.Suite.{Meaning, Lawful, parts, Deciphered};

use crate::copies::{Level, SessionCopy};

// A suite, known by the type of its parts. Only generic code of these crates calls it.
pub trait Suite: Copy + PartialEq {
    ghost suite: { Meaning Self };

    // Functions and no constants: a clause says that each is the suite's own, where a constant needs a ghost twin and a law.
    fn width() -> usize
        ensures { result ≡ suite.width };

    fn message_byte() -> u8
        ensures { result ≡ suite.message_byte };

    fn share_byte() -> u8
        ensures { result ≡ suite.share_byte };

    fn export_byte() -> u8
        ensures { result ≡ suite.export_byte };

    fn hashed(self, level: Level) -> Self
        ensures { result ≡ suite.hash level self };

    fn write(self, out: &mut [u8])
        requires { length out.old ≡ suite.width }
        ensures { out.new ≡ suite.encode self };

    fn read(bytes: &[u8]) -> Self
        requires { length bytes.now ≡ suite.width }
        ensures { result ≡ suite.decode bytes.now };

    fn allows(n: usize) -> bool
        ensures { result ≡ suite.allowed n };

    fn tag(copy: &SessionCopy<Self>, bytes: &[u8]) -> [u8; 8]
        ensures { result ≡ suite.tag (parts copy.now) bytes.now };

    // Writes the cipher of a text, and answers its length: suites allocate nothing.
    fn encipher(copy: &SessionCopy<Self>, text: &[u8], out: &mut [u8]) -> usize
        requires short { length text.now ≤ 4096 }
        requires room { 4112 ≤ length out.old }
        ensures value { result ≡ length (suite.cipher (parts copy.now) text.now) }
        ensures after { out.new ≡ laid (suite.cipher (parts copy.now) text.now) out.old };

    // Writes the text of a cipher, and answers its length, or that there is none. It writes to lent memory too.
    fn decipher(copy: &SessionCopy<Self>, cipher: &[u8], out: &mut [u8]) -> Option<usize>
        requires allowed { suite.allowed (length cipher.now) ≡ true }
        requires short { length cipher.now ≤ 4116 }
        requires room { 4111 ≤ length out.old }
        ensures { Deciphered (suite.decipher (parts copy.now) cipher.now) result out.old out.new };

    // Two parts are equal by `==` just where the suite calls them the same.
    ghost compares: { (p q : Self) → Self.eq p q ≡ suite.same p q };

    ghost lawful: { Lawful suite };
}
