// What the small index answers, with the exact places.
ghost use Rattle.std.specs.Prelude.{◌≡◌, ℕ, Some, None, Ok, OnErr, OnOk};
ghost use Rattle.std.specs.List.{slice_get};
ghost use Rattle.index.specs.Held.{Put, Removed};
ghost use Rattle.small_index.specs.Standing.{puts, outs, last_first, Worked};
ghost use Rattle.small_index.specs.Stood.{stood, listed, stood_fits};

use super::SmallSegmentMap;
use index::Index;
use index::entry::{Entry, Full};

impl Index for SmallSegmentMap {
    ghost content = { λ s. record { held = stood s; room = 256 } };

    ghost once = { λ s. s.once };

    ghost fits = { stood_fits };

    fn find(&self, id: u64) -> Option<usize> {
        let first = self.first?;
        if first.id == id {
            return Some(first.number);
        }
        let i = self.overflow.place(id)?;
        Some(self.overflow.entries[i].number)
    }

    fn put(&mut self, id: u64, number: usize) -> Result<Option<usize>, Full>
        ensures cases { Put (stood self.old) (stood self.new) 256 id number result }
        ensures same { OnErr result (self.new ≡ self.old) }
        ensures capacity { ◌≡◌ {A = ℕ} 256 256 }
        ensures places { OnOk result (stood self.new ≡ puts (stood self.old) (record { id = id; number = number })) }
    {
        let new = Entry { id, number };
        let Some(first) = self.first else {
            self.first = Some(new);
            return Ok(None);
        };
        if first.id == id {
            self.first = Some(new);
            return Ok(Some(first.number));
        }
        if let Some(i) = self.overflow.place(id) {
            return Ok(Some(self.overflow.replace(i, new)));
        }
        if self.overflow.is_full() {
            return Err(Full);
        }
        self.overflow.push(new);
        Ok(None)
    }

    fn remove(&mut self, id: u64) -> Option<usize>
        ensures cases { Removed (stood self.old) (stood self.new) id result }
        ensures same { result ≡ None → self.new ≡ self.old }
        ensures capacity { ◌≡◌ {A = ℕ} 256 256 }
        ensures places { stood self.new ≡ outs (stood self.old) id }
    {
        let first = self.first?;
        if first.id == id {
            self.move_up();
            return Some(first.number);
        }
        let i = self.overflow.place(id)?;
        Some(self.overflow.swap_remove(i))
    }

    fn clear(&mut self) {
        self.first = None;
        self.overflow.len = 0;
    }

    fn count(&self) -> usize {
        self.first.map_or(0, |_| self.overflow.len + 1)
    }

    fn capacity(&self) -> usize {
        256
    }
}

impl SmallSegmentMap {
    // The list's last takes the first place; where the list is empty, the first place becomes so too. Both change, and the
    // whole is written: a fixed form of this project.
    fn move_up(&mut self)
        ensures { stood self.new ≡ last_first (listed self.old) }
    {
        // The common case, of one id at a time, copies no list.
        if self.overflow.len == 0 {
            self.first = None;
            return;
        }
        let mut overflow = self.overflow;
        let first = overflow.pop();
        *self = SmallSegmentMap { first, overflow };
    }

    // What stands in a place; place 0 is the first.
    pub fn entry_at(&self, place: usize) -> Option<Entry>
        ensures { result ≡ slice_get (stood self.now) place }
    {
        if place == 0 {
            self.first
        } else {
            self.overflow.get(place - 1)
        }
    }
}

// Puts 1, 2 and 3, takes 1 out, and answers what stands first.
pub fn three_stands_first() -> Result<Option<Entry>, Full>
    ensures law { Worked }
    ensures value { result ≡ Ok (Some (record { id = 3; number = 30 })) }
{
    let mut index = SmallSegmentMap::new();
    let _ = index.put(1, 10)?;
    let _ = index.put(2, 20)?;
    let _ = index.put(3, 30)?;
    let _ = index.remove(1);
    Ok(index.entry_at(0))
}
