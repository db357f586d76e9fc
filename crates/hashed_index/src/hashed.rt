// The hashed index: places for entries, and what it answers.
ghost use Rattle.std.specs.Prelude.{◌≡◌, ◌<◌, ◌≤◌, true, [], length, IfOk, IfErr, vec_len};
ghost use Rattle.hashed_index.specs.Places.{Alone, Reached, kept};
ghost use Rattle.hashed_index.specs.Making.{in_range, told, wanting};
ghost use Rattle.hashed_index.specs.Spots.{Spotted};
ghost use Rattle.hashed_index.specs.declared.hashed.MakeError.TheVariants.{Memory};
ghost use Rattle.hashed_index.specs.Keeps.{kept-once, kept_fits};

use crate::probe::{Spot, along, settle, start};
use index::Index;
use index::entry::{Entry, Full};
use std::alloc::{AllocError, Global};

// Why an index was not made: the number of places is out of range, or there is no memory for them.
#[derive(Clone, Copy, PartialEq, Eq, Debug)]
pub enum MakeError {
    Places,
    Memory,
}

impl MakeError {
    // The refusal's number, as a rule of this project has it; want of memory has none of the list, and answers 0.
    pub fn number(&self) -> u32
        ensures { result ≡ (told self.now).0 }
    {
        match *self {
            MakeError::Places => 1,
            MakeError::Memory => 0,
        }
    }
}

// Where there is no memory, that is why. By hand: a `From` that is derived stands in no clause.
impl From<AllocError> for MakeError {
    ghost from_gives = { λ _ e. e ≡ Memory };

    fn from(_e: AllocError) -> MakeError {
        Self::Memory
    }
}

// No id stands twice, a search reaches each, and `taken` of the places hold one.
#[derive(Drop)]
pub struct HashedIndex {
    places: Vec<Option<Entry>>,
    // Beside the places, so that `count` need not look at all of them.
    taken: usize,
    ghost some: { 0 < vec_len places },
    ghost few: { vec_len places ≤ 65536 },
    ghost long: { length places.items ≡ vec_len places },
    ghost alone: { Alone places.items },
    ghost reached: { Reached places.items },
    ghost counted: { taken ≡ length (kept places.items) },
}

impl HashedIndex {
    pub fn new(heap: Global, places: usize) -> Result<HashedIndex, MakeError>
        ensures made { IfOk result (λ i. (in_range places ≡ true) × (kept i.places.items ≡ []) × (vec_len i.places ≡ places)) }
        ensures refused { IfErr result (λ e. told e ≡ wanting places) }
    {
        if !(1..=65536).contains(&places) {
            return Err(MakeError::Places);
        }
        let places = vec![in heap; None; places]?;
        Ok(HashedIndex { places, taken: 0 })
    }

    // Where an id stands, or where it may be put. The way of a search is a rule of this project, so no map of the library
    // stands here.
    fn seek(&self, id: u64) -> Spot
        ensures { Spotted self.now.places.items id result }
    {
        let n = self.places.len();
        let from = start(n, id);
        // By steps from the first place, round the end, as `cut_off` goes; a chain of two ranges would be no plainer.
        for step in 0..n {
            let i = along(n, from, step);
            let Some(e) = self.places[i] else {
                return Spot::Free(i);
            };
            if e.id == id {
                return Spot::At(i, e.number);
            }
        }
        Spot::Nowhere
    }
}

impl Index for HashedIndex {
    ghost content = { λ s. record { held = kept s.places.items; room = vec_len s.places } };

    ghost once = { λ s. kept-once s.places.items s.alone };

    ghost fits = { λ s. kept_fits s.places.items (vec_len s.places) s.long };

    fn find(&self, id: u64) -> Option<usize> {
        match self.seek(id) {
            Spot::At(_, number) => Some(number),
            _ => None,
        }
    }

    fn put(&mut self, id: u64, number: usize) -> Result<Option<usize>, Full> {
        let (i, former) = match self.seek(id) {
            Spot::At(i, former) => (i, Some(former)),
            Spot::Free(i) => {
                self.taken += 1;
                (i, None)
            }
            Spot::Nowhere => return Err(Full),
        };
        self.places[i] = Some(Entry { id, number });
        Ok(former)
    }

    fn remove(&mut self, id: u64) -> Option<usize> {
        match self.seek(id) {
            Spot::At(i, former) => {
                self.places[i] = None;
                settle(&mut self.places, i);
                self.taken -= 1;
                Some(former)
            }
            _ => None,
        }
    }

    fn clear(&mut self) {
        self.places.fill(None);
        self.taken = 0;
    }

    fn count(&self) -> usize {
        self.taken
    }

    fn capacity(&self) -> usize {
        self.places.len()
    }
}
