// The places of the small index: a first one, and a list of at most 255.
ghost use Rattle.std.specs.Prelude.{◌≡◌, ℕ, ◌+◌, ◌-◌, ◌<◌, ◌≤◌, [], length, None, MatchOption, ◌≢◌, ◌↔◌, IsTrue, slice_get, slice_index_or, slice_set, take};
ghost use Rattle.index.specs.Held.{blank, Once};
ghost use Rattle.small_index.specs.Standing.{standing};

use index::entry::Entry;
use std::mem;

pub mod indexed;

// The list: of its places the first `len` are taken. Its memory is fixed, so it is an array with a count.
#[derive(Clone, Copy)]
struct Overflow {
    entries: [Entry; 255],
    len: usize,
    ghost sized: { length entries ≡ 255 },
    ghost short: { len ≤ 255 },
}

impl Overflow {
    fn new() -> Overflow
        ensures { result.len ≡ 0 }
    {
        Overflow {
            entries: [Entry::default(); 255],
            len: 0,
        }
    }

    fn is_full(&self) -> bool
        ensures { IsTrue result ↔ (self.now.len ≡ 255) }
    {
        self.len == 255
    }

    fn get(&self, i: usize) -> Option<Entry>
        ensures { result ≡ slice_get (take self.now.len self.now.entries) i }
    {
        self.entries[..self.len].get(i).copied()
    }

    // The place of an id.
    fn place(&self, id: u64) -> Option<usize>
        ensures { MatchOption result ((k : ℕ) → k < self.now.len → (slice_index_or self.now.entries k blank).id ≢ id) (λ i. (i < self.now.len) × ((slice_index_or self.now.entries i blank).id ≡ id)) }
    {
        self.entries[..self.len].iter().position(|e| e.id == id)
    }

    // Puts an entry where another stands, and returns the other's number.
    fn replace(&mut self, i: usize, new: Entry) -> usize
        requires { i < self.old.len }
        ensures value { result ≡ (slice_index_or self.old.entries i blank).number }
        ensures items { self.new.entries ≡ slice_set self.old.entries i new }
        ensures len { self.new.len ≡ self.old.len }
    {
        mem::replace(&mut self.entries[i], new).number
    }

    fn push(&mut self, new: Entry)
        requires { self.old.len < 255 }
        ensures items { self.new.entries ≡ slice_set self.old.entries self.old.len new }
        ensures len { self.new.len ≡ self.old.len + 1 }
    {
        self.entries[self.len] = new;
        self.len += 1;
    }

    fn pop(&mut self) -> Option<Entry>
        ensures value { MatchOption result (self.old.len ≡ 0) (λ e. (0 < self.old.len) × (e ≡ slice_index_or self.old.entries (self.old.len - 1) blank)) }
        ensures items { self.new.entries ≡ self.old.entries }
        ensures len { self.new.len ≡ self.old.len - 1 }
    {
        let last = *self.entries[..self.len].last()?;
        self.len -= 1;
        Some(last)
    }

    // Takes an entry out, moves the last into its place, and returns the number that was there.
    fn swap_remove(&mut self, i: usize) -> usize
        requires { i < self.old.len }
        ensures value { result ≡ (slice_index_or self.old.entries i blank).number }
        ensures items { self.new.entries ≡ slice_set self.old.entries i (slice_index_or self.old.entries (self.old.len - 1) blank) }
        ensures len { self.new.len ≡ self.old.len - 1 }
    {
        let last = self.entries[self.len - 1];
        let number = self.replace(i, last);
        self.len -= 1;
        number
    }
}

// No id stands twice, and an empty first place means an empty list.
#[derive(Drop)]
pub struct SmallSegmentMap {
    first: Option<Entry>,
    overflow: Overflow,
    ghost packed: { (first ≡ None → overflow.len ≡ 0) },
    ghost once: { Once (standing first overflow.entries overflow.len) },
}

impl SmallSegmentMap {
    pub fn new() -> SmallSegmentMap
        ensures { standing result.first result.overflow.entries result.overflow.len ≡ [] }
    {
        SmallSegmentMap {
            first: None,
            overflow: Overflow::new(),
        }
    }
}
