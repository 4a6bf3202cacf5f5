// Rows of entries in the order of their keys: what a write at a key's place makes of them.
ghost use Rattle.std.specs.Prelude.{◌≡◌, ◌≤◌, ◌<◌, true, length, if◌then◌else◌};
ghost use Rattle.std.specs.Vec.{vec_capacity};
ghost use Rattle.preference_desk.specs.Writes.{written, has_room};

/// Writes an entry at its key's place, or takes out what stands there where the entry is `None`;
/// `false`, and nothing changes, where there is no room for one more.
pub(crate) fn write<E: Copy>(
    items: &mut Vec<E>,
    limit: usize,
    place: usize,
    stands: bool,
    entry: Option<E>,
) -> bool
    requires place { place ≤ length items.old.items }
    requires inside { stands ≡ true → place < length items.old.items }
    requires capacity { limit ≤ vec_capacity items.old }
    ensures room { result ≡ has_room limit items.old.items stands entry }
    ensures items { items.new.items
        ≡ (if result then written items.old.items place stands entry else items.old.items) }
    ensures capacity { vec_capacity items.old ≤ vec_capacity items.new }
{
    let Some(entry) = entry else {
        if stands {
            items.remove(place);
        }
        return true;
    };
    if stands {
        items[place] = entry;
        return true;
    }
    if items.len() >= limit {
        return false;
    }
    items.insert(place, entry).unwrap();
    true
}
