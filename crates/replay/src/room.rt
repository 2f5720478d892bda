// Items in fixed memory, one behind the other.
ghost use Rattle.std.specs.Prelude.{ℕ, ◌≡◌, ◌≤◌, List, [], set, take};
ghost use Rattle.replay.specs.Room.{joined, joined_often};

use std::marker::Model;

/// At most `N` items.
#[derive(Drop)]
pub struct Room<T: Copy + Drop, const N: usize> {
    items: [T; N],
    len: usize,
}

// Clauses see the items that are there.
impl<T: Copy + Drop, const N: usize> Model for Room<T, N> {
    ghost Value = { List T };

    ghost view = { λ r. take r.len r.items };

    ghost invariant = { λ r. r.len ≤ N };
}

impl<T: Copy + Drop, const N: usize> Room<T, N> {
    // No items; the memory is filled with one that is not there yet.
    pub fn new(filler: T) -> Self
        ensures { result ≡ [] }
    {
        Room {
            items: [filler; N],
            len: 0,
        }
    }

    // The items.
    pub fn as_slice(&self) -> &[T]
        ensures { result.now ≡ self.now }
    {
        &self.items[..self.len]
    }

    // Leaves no items.
    pub fn clear(&mut self)
        ensures { self.new ≡ [] }
    {
        self.len = 0;
    }

    // Puts something in the place of the item at that index; past the items, nothing.
    pub fn put(&mut self, at: usize, item: T)
        ensures { self.new ≡ set self.old at item }
    {
        if at < self.len {
            self.items[at] = item;
        }
    }

    // Puts items behind the others, if they all have room.
    pub fn push_all(&mut self, more: &[T])
        ensures { self.new ≡ joined N self.old more.now }
    {
        let end = self.len;
        if N - end < more.len() {
            return;
        }
        let free = &mut self.items[..];
        free[end..end + more.len()].copy_from_slice(more);
        self.len = end + more.len();
    }

    // The same so often; where a push changes nothing, no further one does.
    pub fn push_often(&mut self, more: &[T], times: usize)
        ensures { self.new ≡ joined_often N times more.now self.old }
    {
        for i in 0..times {
            if more.is_empty() || N - self.len < more.len() {
                return;
            }
            self.push_all(more);
        }
    }
}
