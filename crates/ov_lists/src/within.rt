//! Additions for which there is room.
ghost use Rattle.std.specs.Prelude.{◌≡◌, ◌<◌, ◌≤◌, ◌+◌, ◌++◌, ◌∷◌, [], length, insert, vec_len, vec_capacity};

/// Adds an item at the end, where there is room for it, so that nothing is allocated. The answer is its place.
pub fn push_within<X: Drop>(items: &mut Vec<X>, item: X) -> usize
    requires { vec_len items.old < vec_capacity items.old }
    ensures place { result ≡ length items.old.items }
    ensures items { items.new.items ≡ items.old.items ++ item ∷ [] }
    ensures len { vec_len items.new ≡ vec_len items.old + 1 }
    ensures capacity { vec_capacity items.old ≤ vec_capacity items.new }
{
    let place = items.len();
    let _ = items.push(item);
    place
}

/// Puts an item at a place, where there is room for it, so that nothing is allocated.
pub fn insert_within<X: Drop>(items: &mut Vec<X>, place: usize, item: X)
    requires room { vec_len items.old < vec_capacity items.old }
    requires within { place ≤ length items.old.items }
    ensures items { items.new.items ≡ insert items.old.items place item }
    ensures len { vec_len items.new ≡ vec_len items.old + 1 }
    ensures capacity { vec_capacity items.old ≤ vec_capacity items.new }
{
    let _ = items.insert(place, item);
}
