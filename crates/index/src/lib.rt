// Indexes: finite maps from 64-bit ids to record numbers, with a capacity.
#![tactic(auto)]

ghost use Rattle.std.specs.Prelude.{◌≡◌, ◌≤◌, [], length, None, OnErr};
ghost use Rattle.index.specs.Held.{Content, at, Once, Put, Removed};

pub mod entry;
pub mod holds;

use crate::entry::Full;

// What an index means is its content: what it holds, in an order that is left open, and its capacity.
// `capacity` is a clause at each change, and room is asked for a put: both relate two moments or two values, as no type can.
pub trait Index {
    ghost content: { Self → Content };

    fn find(&self, id: u64) -> Option<usize>
        ensures { result ≡ at (content self.now).held id };

    // Answers the former number, or none; refuses an id that is not held where the capacity is used up, and no other.
    fn put(&mut self, id: u64, number: usize) -> Result<Option<usize>, Full>
        ensures cases { Put (content self.old).held (content self.new).held (content self.old).room id number result }
        ensures same { OnErr result (self.new ≡ self.old) }
        ensures capacity { (content self.new).room ≡ (content self.old).room };

    // Answers the former number, or none.
    fn remove(&mut self, id: u64) -> Option<usize>
        ensures cases { Removed (content self.old).held (content self.new).held id result }
        ensures same { result ≡ None → self.new ≡ self.old }
        ensures capacity { (content self.new).room ≡ (content self.old).room };

    fn clear(&mut self)
        ensures items { (content self.new).held ≡ [] }
        ensures capacity { (content self.new).room ≡ (content self.old).room };

    fn count(&self) -> usize
        ensures { result ≡ length (content self.now).held };

    fn capacity(&self) -> usize
        ensures { result ≡ (content self.now).room };

    ghost once: { (s : Self) → Once (content s).held };

    ghost fits: { (s : Self) → length (content s).held ≤ (content s).room };
}
