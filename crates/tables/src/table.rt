ghost use Rattle.std.specs.Prelude.{◌≡◌, min, length, take, drop, replicate, flat_map, option_to_list};
ghost use Rattle.store.specs.Lasting.{by_same, by_both};
ghost use Rattle.store.specs.Meaning.{empty};
ghost use Rattle.tables.specs.Slots.{table_means};
ghost use Rattle.store.proofs.Lookups.{in_order_rising};

use crate::keys::TableKey;
use crate::slots::{Slot, count_free, entry_of, lowest_above, take_used, used};
use store::meaning::{Store, Value};
use store::refusal::StoreRefusal;

// A keyed table over the caller's slots, one place a slot, in any order.
#[derive(Drop)]
pub struct Table<'a, K, V> {
    slots: &'a mut [Slot<K, V>],
}

impl<K: TableKey, V: Value> Store<K, V> for Table<'_, K, V> {
    ghost means = { λ s. table_means K.Key.rank K.TableKey.MOST s.slots.now };

    // The slots beyond the limit stay, so a caller knows them too once the table is gone.
    ghost steady = { λ s t. (t.slots.ghost_name ≡ s.slots.ghost_name) × (drop K.TableKey.MOST t.slots.now ≡ drop K.TableKey.MOST s.slots.now) };

    ghost lasts = { by_both (by_same (λ s. s.slots.ghost_name)) (by_same (λ s. drop K.TableKey.MOST s.slots.now)) };

    ghost unaltered = { λ s t. t.slots.now ≡ s.slots.now };

    ghost ascends = { λ s. in_order_rising K.Key.rank (flat_map option_to_list (take K.TableKey.MOST s.slots.now)) };

    fn take(&mut self, key: K, value: V) -> Result<(), StoreRefusal> {
        take_used(self.slots, key, value)
    }

    fn look(&self, key: K) -> Option<V> {
        entry_of(used(self.slots), key).map(|e| e.1)
    }

    fn next(&self, last: &Option<K>) -> Option<(K, V)> {
        lowest_above(used(self.slots), *last)
    }

    fn floor(&self) -> u32 {
        0
    }

    fn free(&self) -> usize {
        count_free(used(self.slots))
    }
}

impl<'a, K: TableKey, V: Value> Table<'a, K, V> {
    // An empty table, over all the memory lent: what lies beyond the limit is cleared and never used.
    pub fn over(slots: &'a mut [Slot<K, V>]) -> Table<'a, K, V>
        ensures means { table_means K.rank K.MOST result.slots.now ≡ empty (min (length slots.old) K.MOST) }
        ensures lent { result.slots.ghost_name ≡ slots.entry.ghost_name }
        ensures cleared { result.slots.now ≡ replicate (length slots.old) None }
    {
        slots.fill(None);
        Table { slots }
    }
}
