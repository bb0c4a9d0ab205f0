ghost use Rattle.std.specs.Prelude.{◌≡◌, Err};
ghost use Rattle.store.specs.declared.refusal.StoreRefusal.TheVariants.{NoPlace};
ghost use Rattle.store.specs.Lasting.{by_same, by_part, by_both};
ghost use Rattle.store.specs.Meaning.{room, answer, taken};
ghost use Rattle.floors.specs.Floors.{floored};
ghost use Rattle.store.proofs.Lookups.{each_rising};

use store::meaning::{Key, Store, Value};
use store::refusal::StoreRefusal;

// Shows the store below with every value raised to the floor, and raises what it passes on.
#[derive(Drop)]
pub struct FloorLayer<T> {
    pub below: T,
    pub floor: u32,
}

impl<K: Key, V: Value, T: Store<K, V>> Store<K, V> for FloorLayer<T> {
    ghost means = { λ s. floored V.Value.raise s.floor (T.Store.means s.below) };

    ghost steady = { λ s t. (t.floor ≡ s.floor) × T.Store.steady s.below t.below };

    ghost lasts = { by_both (by_same (λ s. s.floor)) (by_part (λ s. s.below) T.Store.lasts) };

    ghost unaltered = { λ s t. T.Store.unaltered s.below t.below };

    ghost ascends = { λ s. each_rising K.Key.rank (V.Value.raise s.floor) 0 (T.Store.means s.below).entries (T.Store.ascends s.below) };

    // Beside what every store promises: the store below takes the value raised.
    fn take(&mut self, key: K, value: V) -> Result<(), StoreRefusal>
        ensures answer { result ≡ answer (room K.rank (floored V.raise self.old.floor (T.means self.old.below)) key) }
        ensures after { floored V.raise self.new.floor (T.means self.new.below) ≡ taken K.rank V.join V.raise (floored V.raise self.old.floor (T.means self.old.below)) key value }
        ensures steady { (self.new.floor ≡ self.old.floor) × T.steady self.old.below self.new.below }
        ensures refused { result ≡ Err NoPlace → T.unaltered self.old.below self.new.below }
        ensures below { T.means self.new.below ≡ taken K.rank V.join V.raise (T.means self.old.below) key (V.raise self.old.floor value) }
    {
        self.below.take(key, value.raised(self.floor))
    }

    fn look(&self, key: K) -> Option<V> {
        self.below.look(key).map(|v| v.raised(self.floor))
    }

    fn next(&self, last: &Option<K>) -> Option<(K, V)> {
        self.below
            .next(last)
            .map(|(k, v)| (k, v.raised(self.floor)))
    }

    fn floor(&self) -> u32 {
        self.below.floor().max(self.floor)
    }

    fn free(&self) -> usize {
        self.below.free()
    }
}

// The layer over a store that is lent.
pub type LentFloorLayer<'a, T> = FloorLayer<&'a mut T>;
