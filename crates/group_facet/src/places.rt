//! Where a key stands in a map in order, for keys that often come in runs.
ghost use Rattle.std.specs.Prelude.{◌≡◌, Some, true};
ghost use Rattle.std.specs.Ordering.{int_eq};
ghost use Rattle.indexmap.specs.IndexMap.{IsUnique, index_of};

use indexmap::IndexMap;

/// Where the key stands, if it does. One place is looked at first, as that of the key that was looked up last: there no hash is
/// needed.
pub(crate) fn place_of<V>(map: &IndexMap<i128, V>, first: usize, key: &i128) -> Option<usize>
    ensures place { result ≡ index_of int_eq map.now key.now }
    ensures unique { IsUnique int_eq map.now }
{
    if stands_at(map, first, key) {
        return Some(first);
    }
    map.get_index_of(key)
}

/// Whether the key stands at this place.
fn stands_at<V>(map: &IndexMap<i128, V>, place: usize, key: &i128) -> bool
    ensures place { result ≡ true → index_of int_eq map.now key.now ≡ Some place }
    ensures unique { IsUnique int_eq map.now }
{
    if place >= map.len() {
        return false;
    }
    match map.get_index(place) {
        Some((there, _)) => is_same(there, key),
        None => false,
    }
}

fn is_same(key: &i128, other: &i128) -> bool
    ensures { result ≡ int_eq key.now other.now }
{
    *key == *other
}
