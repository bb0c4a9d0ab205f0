ghost use Rattle.std.specs.Prelude.{◌≡◌};
ghost use Rattle.store.specs.Lasting.{by_same, by_part, by_both};

use crate::meaning::{Key, Store, Value};
use crate::refusal::StoreRefusal;

// A lent store is a store.
impl<K: Key, V: Value, T: Store<K, V>> Store<K, V> for &mut T {
    ghost means = { λ s. T.Store.means s.now };

    ghost steady = { λ s t. (t.ghost_name ≡ s.ghost_name) × T.Store.steady s.now t.now };

    ghost lasts = { by_both (by_same (λ s. s.ghost_name)) (by_part (λ s. s.now) T.Store.lasts) };

    ghost unaltered = { λ s t. T.Store.unaltered s.now t.now };

    ghost ascends = { λ s. T.Store.ascends s.now };

    fn take(&mut self, key: K, value: V) -> Result<(), StoreRefusal> {
        (**self).take(key, value)
    }

    fn look(&self, key: K) -> Option<V> {
        (**self).look(key)
    }

    fn next(&self, last: &Option<K>) -> Option<(K, V)> {
        (**self).next(last)
    }

    fn floor(&self) -> u32 {
        (**self).floor()
    }

    fn free(&self) -> usize {
        (**self).free()
    }
}
