// What an index holds, and what it answers where it has no place left.
ghost use Rattle.std.specs.Prelude.{◌≡◌};
ghost use Rattle.index.specs.Told.{told};

// An id and the number of its record.
#[derive(Clone, Copy, PartialEq, Eq, Debug, Default)]
pub struct Entry {
    pub id: u64,
    pub number: usize,
}

// The refusal of a put: the id is not held, and as many ids are held as the capacity says.
#[derive(Clone, Copy, PartialEq, Eq, Debug)]
pub struct Full;

impl Full {
    // The refusal's number, as a rule of this project has it.
    pub fn number(&self) -> u32
        ensures { result ≡ (told self.now).0 }
    {
        14
    }
}
