ghost use Rattle.std.specs.Prelude.{◌≡◌, if◌then◌else◌, Some, MatchResult};
ghost use Rattle.indexmap.specs.IndexMap.{get};

use desk_base::NoMemory;
use indexmap::IndexMap;
use std::hash::{BuildHasher, Hash};

// Puts a value under a key; on `NoMemory` all stays as it was.
pub(crate) fn put<K: Eq + Hash + Drop, V: Drop, S: BuildHasher>(
    map: &mut IndexMap<K, V, S>,
    key: K,
    value: V,
) -> Result<(), NoMemory>
    ensures { MatchResult result
        (λ _. (other : K) → get K.eq map.new other ≡ (if K.eq key other then Some value else get K.eq map.old other))
        (λ _. (other : K) → get K.eq map.new other ≡ get K.eq map.old other) }
{
    map.insert(key, value)?;
    Ok(())
}
