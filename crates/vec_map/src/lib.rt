// Pair maps: a row of pairs in lent memory, with a count and a mark, for every key that has a sameness.
#![tactic(auto)]

ghost use Rattle.std.specs.Prelude.{◌≡◌, ℕ};
ghost use Rattle.std.specs.Option.{option_map};
ghost use Rattle.vec_map.specs.Model.{row_of};
ghost use Rattle.vec_map.specs.Tables.{headed};
ghost use Rattle.vec_map.specs.Rows.{last_value, items};

use head::Head;
use key::Key;

mod edits;
pub mod float;
pub mod head;
pub mod key;
mod row;
pub mod table;
pub mod worked;

// Pairs in the order in which they came, repeats included. The mark says that no key stands twice; `mark_deduped` sets
// it on the caller's word. A count past the memory reads as all of it.
#[derive(Drop)]
pub struct VecMap<'a, K, V> {
    pairs: &'a mut [(K, V)],
    head: Head,
}

impl<'a, K: Key, V: Copy> VecMap<'a, K, V> {
    // The map over a row, of which as many pairs count as the head says. `place`, here and at each change, says that the
    // map stays on this row: without it nothing is known of the row once the map is gone.
    pub fn new(pairs: &'a mut [(K, V)], head: Head) -> VecMap<'a, K, V>
        ensures place { result.pairs.ghost_name ≡ pairs.entry.ghost_name }
        ensures row { row_of result ≡ headed pairs.old head }
    {
        VecMap { pairs, head }
    }

    // The count and the mark, to be kept beside the row.
    pub fn head(&self) -> Head
        ensures { headed self.now.pairs.now result ≡ row_of self.now }
    {
        self.head
    }

    // How many pairs there are, repeats counted.
    pub fn len(&self) -> usize
        ensures { result ≡ (row_of self.now).len }
    {
        self.head.count
    }

    pub fn is_deduped(&self) -> bool
        ensures { result ≡ (row_of self.now).deduped }
    {
        self.head.deduped
    }

    // The pairs in order, repeats included.
    pub fn pairs(&self) -> &[(K, V)]
        ensures { result.now ≡ items (row_of self.now) }
    {
        row::front(self.pairs, self.head.count)
    }

    // The value of the last pair with the key.
    pub fn get(&self, key: &K) -> Option<&V>
        ensures { option_map (λ x. x.now) result ≡ last_value K.alike key.now (items (row_of self.now)) }
    {
        row::value_of(self.pairs(), key)
    }
}
