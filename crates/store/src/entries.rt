ghost use Rattle.std.specs.Prelude.{◌≡◌, List};
ghost use Rattle.std.specs.Iterator.{YieldsFirst, item_count};
ghost use Rattle.store.specs.Maps.{beyond};

use crate::meaning::{Key, Store, Value};
use std::marker::{Model, PhantomData};

// Walks through the entries of a store, in the order of their keys.
#[derive(Drop)]
pub struct Entries<'s, K: Key, V: Value, S: Store<K, V>> {
    store: &'s S,
    last: Option<K>,
    values: PhantomData<V>,
}

// Seen as the entries that are left.
impl<'s, K: Key, V: Value, S: Store<K, V>> Model for Entries<'s, K, V, S> {
    ghost Value = { List (K × V) };

    ghost view = { λ s. beyond K.Key.rank (S.means s.store.now).entries s.last };
}

impl<K: Key, V: Value, S: Store<K, V>> Iterator for Entries<'_, K, V, S> {
    type Item = (K, V);

    ghost next_gives = { YieldsFirst (λ s. s) };

    ghost remaining = { item_count (λ s. s) };

    fn next(&mut self) -> Option<(K, V)> {
        let entry = self.store.next(&self.last)?;
        self.last = Some(entry.0);
        Some(entry)
    }
}

impl<'s, K: Key, V: Value, S: Store<K, V>> Entries<'s, K, V, S> {
    pub fn of(store: &'s S) -> Entries<'s, K, V, S>
        ensures { result ≡ (S.means store.now).entries }
    {
        Entries {
            store,
            last: None,
            values: PhantomData,
        }
    }
}
