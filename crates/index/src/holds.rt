// The question whether an index holds the ids of some records, each at its place, and nothing else.
ghost use Rattle.std.specs.Prelude.{◌↔◌, IsTrue};
ghost use Rattle.index.specs.Holding.{Holds, placed};

use crate::Index;

// Goes by the records that have an id: each is found at its place, and the index counts no more.
// (Counted by hand, since the same pass asks the index for each.)
pub fn holds<I: Index>(index: &I, records: &[Option<u64>]) -> bool
    ensures { IsTrue result ↔ (Holds (I.content index.now).held (placed records.now)) }
{
    let mut ids: usize = 0;
    for (i, record) in records.iter().enumerate() {
        if let Some(id) = *record {
            if index.find(id) != Some(i) {
                return false;
            }
            ids += 1;
        }
    }
    index.count() == ids
}
