ghost use Rattle.std.specs.Prelude.{◌≡◌, ◌≤◌, ◌<◌, Err, IfNone, IfSome, is_none, count_by};
ghost use Rattle.store.specs.declared.refusal.StoreRefusal.TheVariants.{NoPlace};
ghost use Rattle.store.specs.Meaning.{answer, looked};
ghost use Rattle.intake.specs.Merging.{room_for, merged};

use store::entries::Entries;
use store::meaning::{Key, Store, Value};
use store::refusal::StoreRefusal;

// The first entry of `src` whose key is new to `dst` and finds no place, once the new keys before
// it have theirs. A function of its own, where the chain's law is found.
fn first_without_place<K: Key, V: Value, A: Store<K, V>, B: Store<K, V>>(
    dst: &A,
    src: &B,
) -> Option<(K, V)>
    ensures none { IfNone result (count_by (λ e. is_none (looked K.rank (A.means dst.now) e.0)) (B.means src.now).entries ≤ (A.means dst.now).places) }
    ensures some { IfSome result (λ _. (A.means dst.now).places < count_by (λ e. is_none (looked K.rank (A.means dst.now) e.0)) (B.means src.now).entries) }
{
    Entries::of(src)
        .filter(|e| dst.look(e.0).is_none())
        .nth(dst.free())
}

// Whether the places of `dst` suffice for all keys of `src` that it lacks.
fn has_room<K: Key, V: Value, A: Store<K, V>, B: Store<K, V>>(dst: &A, src: &B) -> bool
    ensures { result ≡ room_for K.rank (A.means dst.now) (B.means src.now).entries }
{
    first_without_place(dst, src).is_none()
}

// Takes in every entry that `src` shows, or none.
pub fn merge<K: Key, V: Value, A: Store<K, V>, B: Store<K, V>>(
    dst: &mut A,
    src: &B,
) -> Result<(), StoreRefusal>
    ensures answer { result ≡ answer (room_for K.rank (A.means dst.old) (B.means src.now).entries) }
    ensures after { A.means dst.new ≡ merged K.rank V.join V.raise (A.means dst.old) (B.means src.now).entries }
    ensures steady { A.steady dst.old dst.new }
    ensures refused { result ≡ Err NoPlace → dst.new ≡ dst.old }
{
    if !has_room(dst, src) {
        return Err(StoreRefusal::NoPlace);
    }
    for (key, value) in Entries::of(src) {
        let _ = dst.take(key, value);
    }
    Ok(())
}
