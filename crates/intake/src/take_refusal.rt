ghost use Rattle.std.specs.Prelude.{◌≡◌};
ghost use Rattle.intake.specs.Taking.{of_copy, of_store};
ghost use Rattle.intake.specs.Numbers.{take_number};

use copy_bytes::named::CopyFault;
use store::refusal::StoreRefusal;

// Why copy bytes are not taken, by its number. Flat, the lower layers' reasons taken over by `From`: a number is a discriminant.
#[derive(Clone, Copy, Debug, PartialEq, Eq)]
pub enum TakeRefusal {
    Length = 1,
    Version = 2,
    NoPlace = 3,
}

impl From<TakeRefusal> for u8 {
    ghost from_gives = { λ r n. n ≡ take_number r };

    fn from(taking: TakeRefusal) -> u8 {
        taking as u8
    }
}

impl From<CopyFault> for TakeRefusal {
    ghost from_gives = { λ e r. r ≡ of_copy e };

    fn from(e: CopyFault) -> TakeRefusal {
        match e {
            CopyFault::Length => TakeRefusal::Length,
            CopyFault::Version => TakeRefusal::Version,
        }
    }
}

impl From<StoreRefusal> for TakeRefusal {
    ghost from_gives = { λ e r. r ≡ of_store e };

    fn from(e: StoreRefusal) -> TakeRefusal {
        match e {
            StoreRefusal::NoPlace => TakeRefusal::NoPlace,
        }
    }
}
