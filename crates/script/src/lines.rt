// A script, line by line.
ghost use Rattle.std.specs.Prelude.{◌≡◌, ◌<◌, Some};
ghost use Rattle.std.specs.Option.{option_map};
ghost use Rattle.std.specs.Iterator.{at_most};
ghost use Rattle.script.specs.Script.{unread, extent, GivesLine};
ghost use Rattle.script.specs.Words.{upto, behind};

use crate::words::split_once;

// What is left to read, none once the last line was given out, and how many lines were given out.
// The library's `split` with `enumerate` does not stand in: the type of its closure has no name to keep in a field.
#[derive(Clone, Copy)]
pub struct Script<'a> {
    pub rest: Option<&'a [u8]>,
    pub lines: u64,
}

// The first line of a text, and what stands behind it, which is less.
fn cut_line(text: &[u8]) -> (&[u8], Option<&[u8]>)
    ensures line { result.0.now ≡ upto 10 text.now }
    ensures rest { option_map (λ x. x.now) result.1 ≡ behind 10 text.now }
    ensures less { extent (option_map (λ x. x.now) result.1) < extent (Some text.now) }
{
    split_once(text, b'\n').map_or((text, None), |(line, rest)| (line, Some(rest)))
}

impl<'a> Script<'a> {
    pub fn new(text: &'a [u8]) -> Script<'a>
        ensures rest { option_map (λ x. x.now) result.rest ≡ Some text.now }
        ensures lines { result.lines ≡ 0 }
    {
        Script {
            rest: Some(text),
            lines: 0,
        }
    }

    // How many lines were given out: the number of the last one.
    pub fn lines(&self) -> u64
        ensures { result ≡ self.now.lines }
    {
        self.lines
    }
}

// The lines, without their newlines.
impl<'a> Iterator for Script<'a> {
    type Item = &'a [u8];

    ghost next_gives = { λ s line t. GivesLine (unread s) (option_map (λ x. x.now) line) (unread t) };

    ghost remaining = { λ s. at_most (extent (unread s).rest) };

    fn next(&mut self) -> Option<&'a [u8]> {
        let (line, rest) = cut_line(self.rest?);
        self.rest = rest;
        self.lines = self.lines.saturating_add(1);
        Some(line)
    }
}
