ghost use Rattle.std.specs.Prelude.{◌≡◌, take, drop, cond, true, false, None, Err, position, is_none, count_by, find, filter};
ghost use Rattle.std.specs.List.{filter_map, reduce};
ghost use Rattle.std.specs.Option.{option_map_or};
ghost use Rattle.std.specs.Ordering.{partial_lt};
ghost use Rattle.store.specs.declared.refusal.StoreRefusal.TheVariants.{NoPlace};
ghost use Rattle.store.specs.Meaning.{room, answer, taken};
ghost use Rattle.tables.specs.Slots.{slots_mean, table_means};

use crate::keys::TableKey;
use store::meaning::{Key, Value};
use store::refusal::StoreRefusal;

// One place of a keyed table: free, or an entry.
pub type Slot<K, V> = Option<(K, V)>;

// The slots that a table uses: those up to the limit.
pub(crate) fn used<K: TableKey, V: Copy>(slots: &[Slot<K, V>]) -> &[Slot<K, V>]
    ensures { result.now ≡ take K.MOST slots.now }
{
    &slots[..slots.len().min(K::MOST)]
}

// A chain's law is found only at a function of its own, so this one, `entry_of` and `lowest_above`
// retrace their chains, and the callers' proofs say what that means for keys in order.
// They skip free slots by `filter_map`: `flatten` copies each entry out, and takes several times as long.
fn key_place<K: Key, V: Copy>(slots: &[Slot<K, V>], key: K) -> Option<usize>
    ensures { result ≡ position (λ s. option_map_or (λ e. K.eq e.0 key) s false) slots.now }
{
    slots.iter().position(|s| s.is_some_and(|e| e.0 == key))
}

fn free_place<K: Copy, V: Copy>(slots: &[Slot<K, V>]) -> Option<usize>
    ensures { result ≡ position is_none slots.now }
{
    slots.iter().position(|s| s.is_none())
}

pub(crate) fn count_free<K: Copy, V: Copy>(slots: &[Slot<K, V>]) -> usize
    ensures { result ≡ count_by is_none slots.now }
{
    slots.iter().filter(|s| s.is_none()).count()
}

pub(crate) fn entry_of<K: Key, V: Copy>(slots: &[Slot<K, V>], key: K) -> Option<(K, V)>
    ensures { result ≡ find (λ e. K.eq e.0 key) (filter_map (λ s. s) slots.now) }
{
    slots.iter().copied().filter_map(|s| s).find(|e| e.0 == key)
}

pub(crate) fn lowest_above<K: Key, V: Copy>(slots: &[Slot<K, V>], last: Option<K>) -> Option<(K, V)>
    ensures { result ≡ reduce (λ a b. cond (partial_lt K.partial_cmp b.0 a.0) b a) (filter (λ e. option_map_or (λ q. partial_lt K.partial_cmp q e.0) last true) (filter_map (λ s. s) slots.now)) }
{
    slots
        .iter()
        .copied()
        .filter_map(|s| s)
        .filter(|e| last.is_none_or(|q| q < e.0))
        .reduce(|a, b| if b.0 < a.0 { b } else { a })
}

fn take_in<K: Key, V: Value>(slots: &mut [Slot<K, V>], key: K, value: V) -> Result<(), StoreRefusal>
    ensures answer { result ≡ answer (room K.rank (slots_mean K.rank slots.old) key) }
    ensures after { slots_mean K.rank slots.new ≡ taken K.rank V.join V.raise (slots_mean K.rank slots.old) key value }
    ensures refused { result ≡ Err NoPlace → slots.new ≡ slots.old }
{
    let i = key_place(slots, key)
        .or_else(|| free_place(slots))
        .ok_or(StoreRefusal::NoPlace)?;
    slots[i] = Some((key, slots[i].map_or(value, |e| e.1.joined(value))));
    Ok(())
}

// A function over the slots, since a part of a field behind a `&mut` is lent with no generated proof.
pub(crate) fn take_used<K: TableKey, V: Value>(
    slots: &mut [Slot<K, V>],
    key: K,
    value: V,
) -> Result<(), StoreRefusal>
    ensures answer { result ≡ answer (room K.rank (table_means K.rank K.MOST slots.old) key) }
    ensures after { table_means K.rank K.MOST slots.new ≡ taken K.rank V.join V.raise (table_means K.rank K.MOST slots.old) key value }
    ensures beyond { drop K.MOST slots.new ≡ drop K.MOST slots.old }
    ensures refused { result ≡ Err NoPlace → slots.new ≡ slots.old }
{
    let n = slots.len().min(K::MOST);
    take_in(&mut slots[..n], key, value)
}
