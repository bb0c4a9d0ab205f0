ghost use Rattle.std.specs.Prelude.{◌≡◌};
ghost use Rattle.store.specs.Numbers.{store_number};

// Why a store refuses, by its number.
#[derive(Clone, Copy, Debug, PartialEq, Eq)]
pub enum StoreRefusal {
    NoPlace = 3,
}

impl From<StoreRefusal> for u8 {
    ghost from_gives = { λ r n. n ≡ store_number r };

    fn from(denial: StoreRefusal) -> u8 {
        denial as u8
    }
}
