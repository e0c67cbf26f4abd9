ghost use Rattle.std.specs.Prelude.{◌≡◌, ◌≤◌, ◌+◌, IfOk};
ghost use Rattle.indexmap.specs.IndexMap.{spare, index_map_len};

use indexmap::IndexMap;
use std::alloc::{AllocError, Global};
use std::hash::{BuildHasher, Hash};

// The same entries again in the same order, with room for so many.
pub(crate) fn copy_of<K: Eq + Hash + Copy, V: Copy, S: BuildHasher + Default + Drop>(
    alloc: Global,
    map: &IndexMap<K, V, S>,
    room: usize,
) -> Result<IndexMap<K, V, S>, AllocError>
    ensures entries { IfOk result (λ copy. copy.entries ≡ map.now.entries) }
    ensures room { IfOk result (λ copy. room ≤ index_map_len copy + spare copy) }
{
    let mut copy = IndexMap::with_capacity_and_hasher(alloc, room, S::default())?;
    copy.extend(map)?;
    Ok(copy)
}
