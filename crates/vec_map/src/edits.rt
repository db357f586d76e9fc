// Changes of a pair map.
ghost use Rattle.std.specs.Prelude.{◌≡◌, ℕ, false, not, is_ok};
ghost use Rattle.vec_map.specs.Model.{row_of};
ghost use Rattle.vec_map.specs.Rows.{last_value, items, full, insert_row, insert_answer, clear_row, mark_row, dedup_row, NoRepeats};

use crate::key::Key;
use crate::{VecMap, row};

impl<'a, K: Key, V: Copy> VecMap<'a, K, V> {
    // One pair more at the end, which clears the mark. A full row hands the pair back and stays as it is.
    #[tactic(auto, unfolding(crate::specs::Rows::insert_row, crate::specs::Rows::insert_answer))]
    pub fn insert(&mut self, key: K, value: V) -> Result<(), (K, V)>
        ensures place { self.new.pairs.ghost_name ≡ self.old.pairs.ghost_name }
        ensures test { is_ok result ≡ not (full (row_of self.old)) }
        ensures answer { result ≡ insert_answer (row_of self.old) key value }
        ensures row { row_of self.new ≡ insert_row (row_of self.old) key value }
    {
        // By the length: after a `get_mut` of a slice a proof knows no element of it.
        if self.head.count >= self.pairs.len() {
            return Err((key, value));
        }
        self.pairs[self.head.count] = (key, value);
        self.head.count += 1;
        self.head.deduped = false;
        Ok(())
    }

    // Drops all pairs and keeps the mark.
    pub fn clear(&mut self)
        ensures place { self.new.pairs.ghost_name ≡ self.old.pairs.ghost_name }
        ensures row { row_of self.new ≡ clear_row (row_of self.old) }
    {
        self.head.count = 0;
    }

    pub fn mark_deduped(&mut self)
        ensures place { self.new.pairs.ghost_name ≡ self.old.pairs.ghost_name }
        ensures row { row_of self.new ≡ mark_row (row_of self.old) }
    {
        self.head.deduped = true;
    }

    // Nothing on a marked row. Otherwise the row reversed, each key's first pair kept, and the mark set: every lookup
    // answers as before, and no key stands twice.
    pub fn dedup(&mut self)
        ensures place { self.new.pairs.ghost_name ≡ self.old.pairs.ghost_name }
        ensures row { row_of self.new ≡ dedup_row K.alike (row_of self.old) }
        ensures lookups { (k : K) → last_value K.alike k (items (row_of self.new)) ≡ last_value K.alike k (items (row_of self.old)) }
        ensures once { (row_of self.old).deduped ≡ false → NoRepeats K.alike (items (row_of self.new)) }
    {
        if !self.head.deduped {
            self.head.count = row::dedup(self.pairs, self.head.count);
            self.mark_deduped();
        }
    }
}
