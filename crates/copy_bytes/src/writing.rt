ghost use Rattle.std.specs.Prelude.{◌≡◌};
ghost use Rattle.ratchet.specs.Ids.{id_bytes};
ghost use Rattle.copy_bytes.specs.CopyBytes.{version_byte, copy_bytes, copy_length};
ghost use Rattle.copy_bytes.specs.Output.{Fills};

use crate::named::{NamedCopy, Version};
use crate::output::SpaceRefusal;
use crate::placing::Pen;
use ratchet::ids::Id;
use ratchet::suite::Suite;

// How many bytes a copy takes.
pub fn copy_length<P: Suite>() -> usize
    ensures { result ≡ copy_length P.suite }
{
    37 + 4 * P::width()
}

fn byte_of<P: Suite>(version: Version) -> u8
    ensures { result ≡ version_byte P.suite version }
{
    match version {
        Version::Share => P::share_byte(),
        Version::Export => P::export_byte(),
    }
}

// Writes a copy with one of its suite's version bytes.
pub fn write_copy<P: Suite>(
    version: Version,
    named: &NamedCopy<P>,
    out: &mut [u8],
) -> Result<usize, SpaceRefusal>
    ensures { Fills (copy_bytes P.suite version named.now) out.old result out.new }
{
    if out.len() < copy_length::<P>() {
        return Err(SpaceRefusal::TooSmall);
    }
    let mut pen = Pen { out, at: 0 };
    pen.put(&[byte_of::<P>(version)]);
    pen.put(&named.copy.index.to_be_bytes());
    pen.part(named.copy.r0);
    pen.part(named.copy.r1);
    pen.part(named.copy.r2);
    pen.part(named.copy.r3);
    pen.id(named.id);
    Ok(pen.at)
}

// Writes the 32 bytes of an id.
#[tactic(auto, using(crate::proofs::Ids::length_id))]
pub fn write_id(id: Id, out: &mut [u8]) -> Result<usize, SpaceRefusal>
    ensures { Fills (id_bytes id) out.old result out.new }
{
    if out.len() < 32 {
        return Err(SpaceRefusal::TooSmall);
    }
    let mut pen = Pen { out, at: 0 };
    pen.id(id);
    Ok(pen.at)
}
