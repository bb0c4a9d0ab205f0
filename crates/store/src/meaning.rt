ghost use Rattle.std.specs.Prelude.{◌≡◌, ℕ, Err};
ghost use Rattle.std.specs.Ordering.{nat_cmp};
ghost use Rattle.store.specs.declared.refusal.StoreRefusal.TheVariants.{NoPlace};
ghost use Rattle.store.specs.Laws.{ValueLaws};
ghost use Rattle.store.specs.Lasting.{Steady};
ghost use Rattle.store.specs.Meaning.{Meaning, Ascends, looked, nexted, room, answer, taken};

use crate::refusal::StoreRefusal;

// A key, ordered by its rank, a number.
pub trait Key: Copy + Ord {
    ghost rank: { Self → ℕ };

    ghost ordered: { (a b : Self) → Self.cmp a b ≡ nat_cmp (rank a) (rank b) };
}

// A value that can be joined with another, and raised to a floor.
pub trait Value: Copy {
    ghost join: { Self → Self → Self };

    ghost raise: { ℕ → Self → Self };

    fn joined(self, other: Self) -> Self
        ensures { result ≡ join self other };

    fn raised(self, floor: u32) -> Self
        ensures { result ≡ raise floor self };

    ghost laws: { ValueLaws join raise };
}

// A map from keys to values, with a floor and a number of free places.
pub trait Store<K: Key, V: Value> {
    ghost means: { Self → Meaning K V };

    // The store still lies in the memory that it was lent, and left alone what it does not use.
    ghost steady: { Self → Self → Type 0 };

    ghost lasts: { Steady steady };

    // The very memory is as it was.
    ghost unaltered: { Self → Self → Type 0 };

    // Raises the value to the floor and joins it to what the key has, or enters it.
    fn take(&mut self, key: K, value: V) -> Result<(), StoreRefusal>
        ensures answer { result ≡ answer (room K.rank (means self.old) key) }
        ensures after { means self.new ≡ taken K.rank V.join V.raise (means self.old) key value }
        ensures steady { steady self.old self.new }
        ensures refused { result ≡ Err NoPlace → unaltered self.old self.new };

    fn look(&self, key: K) -> Option<V>
        ensures { result ≡ looked K.rank (means self.now) key };

    // The entry of the lowest key above `last`, which need not be held, or of the lowest key.
    fn next(&self, last: &Option<K>) -> Option<(K, V)>
        ensures { result ≡ nexted K.rank (means self.now) last.now };

    fn floor(&self) -> u32
        ensures { result ≡ (means self.now).floor };

    fn free(&self) -> usize
        ensures { result ≡ (means self.now).places };

    // The entries stand in the order of their keys.
    ghost ascends: { (s : Self) → Ascends K.rank (means s) };
}
