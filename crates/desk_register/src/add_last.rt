ghost use Rattle.std.specs.Prelude.{◌≡◌, ◌≤◌, ◌<◌, ◌+◌, if◌then◌else◌, None, Some, [], ◌∷◌, ◌++◌};
ghost use Rattle.indexmap.specs.IndexMap.{get, keys, spare};

use indexmap::IndexMap;
use std::hash::{BuildHasher, Hash};

// Puts a value under a key that has none. It goes last.
pub(crate) fn add_last<K: Eq + Hash + Copy, V: Copy, S: BuildHasher>(
    map: &mut IndexMap<K, V, S>,
    key: K,
    value: V,
)
    requires room { 0 < spare map.old }
    requires new { get K.eq map.old key ≡ None }
    ensures under { (other : K) → get K.eq map.new other ≡ (if K.eq key other then Some value else get K.eq map.old other) }
    ensures keys { keys map.new ≡ keys map.old ++ key ∷ [] }
    ensures spare { spare map.old ≤ spare map.new + 1 }
{
    match map.insert(key, value) {
        Ok(_) => {}
        Err(_) => {}
    }
}
