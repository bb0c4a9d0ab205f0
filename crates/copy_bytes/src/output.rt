ghost use Rattle.std.specs.Prelude.{◌≡◌};
ghost use Rattle.copy_bytes.specs.Output.{Fills};
ghost use Rattle.copy_bytes.specs.Numbers.{space_number};

// Why an output is not filled, by its number.
#[derive(Clone, Copy, Debug, PartialEq, Eq)]
pub enum SpaceRefusal {
    TooSmall = 16,
}

impl From<SpaceRefusal> for u8 {
    ghost from_gives = { λ r n. n ≡ space_number r };

    fn from(want: SpaceRefusal) -> u8 {
        want as u8
    }
}

// Fills the front of an output, and answers how much; what lies behind stays.
pub fn put(bytes: &[u8], out: &mut [u8]) -> Result<usize, SpaceRefusal>
    ensures { Fills bytes.now out.old result out.new }
{
    if out.len() < bytes.len() {
        return Err(SpaceRefusal::TooSmall);
    }
    out[..bytes.len()].copy_from_slice(bytes);
    Ok(bytes.len())
}
