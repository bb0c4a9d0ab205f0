ghost use Rattle.std.specs.Prelude.{◌≡◌};
ghost use Rattle.message.specs.Varint.{read_varint, VarintLaws};

// The number at the front of some bytes, and how many bytes it takes; none where it is cut off, not in its
// shortest form, or above 2^32 - 1.
pub fn read_varint(bytes: &[u8]) -> Option<(u32, usize)>
    ensures { result ≡ read_varint bytes.now }
{
    // The form stays as the project asks: a loop that breaks with value and length, and a label out of it for all refusals.
    let mut at: usize = 0;
    let mut value: u64 = 0;
    let mut unit: u64 = 1;
    'form: {
        let (v, n) = loop {
            if at >= 5 || at >= bytes.len() {
                break 'form;
            }
            let b = bytes[at];
            if b < 128 {
                if b == 0 && at > 0 {
                    break 'form;
                }
                break (value + unit * u64::from(b), at + 1);
            }
            value += unit * u64::from(b - 128);
            unit *= 128;
            at += 1;
        };
        if v < 4_294_967_296 {
            return Some((v as u32, n));
        }
    }
    None
}

// Every varint has one form, and it is read again.
#[tactic(auto, using(crate::proofs::Varints::varint_laws_lem))]
pub fn varint_laws()
    ensures { VarintLaws }
{}
