ghost use Rattle.std.specs.Prelude.{◌≡◌, ◌<◌, IfSome};
ghost use Rattle.std.specs.Option.{option_map};
ghost use Rattle.indexmap.specs.IndexMap.{get, index_of, index_map_len};

use indexmap::IndexMap;
use std::hash::{BuildHasher, Hash};

/// The hints of each map are 2^12.
pub(crate) const HINT_BITS: u32 = 12;

// The index that the map has for a key. It stays a call, so that the way by the hint is short where it is inlined.
#[inline(never)]
fn search_in<K: Eq + Hash, V, S: BuildHasher>(map: &IndexMap<K, V, S>, key: &K) -> Option<usize>
    ensures index { result ≡ index_of K.eq map.now key.now }
    ensures within { IfSome result (λ index. index < index_map_len map.now) }
{
    map.get_index_of(key)
}

/// What is kept under a key, with its index among all; `None` exactly where nothing is. It is looked for at the hint first.
pub(crate) fn find_in<'a, K: Eq + Hash, V, S: BuildHasher>(
    map: &'a IndexMap<K, V, S>,
    key: &K,
    hint: usize,
) -> Option<Indexed<'a, V>>
    ensures index { option_map (λ x. x.index) result ≡ index_of K.eq map.now key.now }
    ensures value { option_map (λ x. x.value.now) result ≡ get K.eq map.now key.now }
    ensures within { IfSome result (λ x. x.index < index_map_len map.now) }
{
    // It is called for its clause, that no key is there twice.
    map.len();
    if let Some((there, value)) = map.get_index(hint) {
        if there == key {
            return Some(Indexed { index: hint, value });
        }
    }
    let index = search_in(map, key)?;
    let (_, value) = map.get_index(index)?;
    Some(Indexed { index, value })
}

/// What is kept in a map, and its index among all, from 0.
#[derive(Clone, Copy)]
pub(crate) struct Indexed<'a, V> {
    pub(crate) index: usize,
    pub(crate) value: &'a V,
}
