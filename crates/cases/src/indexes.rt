// Cases on the limits of the indexes.
use hashed_index::hashed::HashedIndex;
use index::Index;
use index::holds::holds;
use small_index::segment::SmallSegmentMap;
use small_index::segment::indexed::three_stands_first;
use std::alloc::Global;

// A call of an index, with the answer that it must give: a list of them runs at an index of any kind.
#[derive(Clone, Copy)]
pub enum Step {
    Put(u64, usize, Option<usize>),
    Refused(u64),
    Find(u64, Option<usize>),
    Remove(u64, Option<usize>),
    Clear,
    Count(usize),
    Capacity(usize),
}

fn answers<I: Index>(index: &mut I, step: Step) -> bool {
    match step {
        Step::Put(id, number, former) => index.put(id, number) == Ok(former),
        Step::Refused(id) => index.put(id, 0).is_err_and(|full| full.number() == 14),
        Step::Find(id, number) => index.find(id) == number,
        Step::Remove(id, former) => index.remove(id) == former,
        Step::Clear => {
            index.clear();
            true
        }
        Step::Count(n) => index.count() == n,
        Step::Capacity(n) => index.capacity() == n,
    }
}

// How many steps answer as they must, up to the first that does not.
fn run<I: Index>(index: &mut I, steps: &[Step]) -> usize {
    steps
        .iter()
        .position(|step| !answers(index, *step))
        .unwrap_or(steps.len())
}

// The least and the greatest id, at any index with two places and more.
const ENDS: [Step; 14] = [
    Step::Find(0, None),
    Step::Put(0, 7, None),
    Step::Put(u64::MAX, 8, None),
    Step::Find(0, Some(7)),
    Step::Find(u64::MAX, Some(8)),
    Step::Find(1, None),
    Step::Put(u64::MAX, 9, Some(8)),
    Step::Count(2),
    Step::Remove(0, Some(7)),
    Step::Remove(0, None),
    Step::Find(u64::MAX, Some(9)),
    Step::Clear,
    Step::Find(u64::MAX, None),
    Step::Count(0),
];

// With one place, which one id fills.
const ONE: [Step; 11] = [
    Step::Put(u64::MAX, 5, None),
    Step::Refused(0),
    Step::Find(0, None),
    Step::Put(u64::MAX, 7, Some(5)),
    Step::Count(1),
    Step::Remove(u64::MAX, Some(7)),
    Step::Put(0, 6, None),
    Step::Find(0, Some(6)),
    Step::Clear,
    Step::Count(0),
    Step::Capacity(1),
];

// With four places: ids that share a remainder, every place taken, and a removal that moves entries round the end.
const FOUR: [Step; 12] = [
    Step::Put(0, 10, None),
    Step::Put(2, 11, None),
    Step::Put(6, 12, None),
    Step::Put(10, 13, None),
    Step::Count(4),
    Step::Refused(1),
    Step::Remove(0, Some(10)),
    Step::Find(2, Some(11)),
    Step::Find(6, Some(12)),
    Step::Find(10, Some(13)),
    Step::Find(0, None),
    Step::Count(3),
];

// With 256 ids, those below 256, held: full, one over, and one out.
const FULL: [Step; 10] = [
    Step::Count(256),
    Step::Capacity(256),
    Step::Find(255, Some(255)),
    Step::Refused(256),
    Step::Put(255, 3, Some(255)),
    Step::Remove(100, Some(100)),
    Step::Put(256, 1, None),
    Step::Find(256, Some(1)),
    Step::Clear,
    Step::Count(0),
];

// How many of the ids below `n` are put, each for itself.
fn put_below<I: Index>(index: &mut I, n: usize) -> usize {
    (0..n)
        .find(|i| index.put(*i as u64, *i).is_err())
        .unwrap_or(n)
}

// The number of the refusal, none where an index of that many places is made.
fn refusal(heap: Global, places: usize) -> Option<u32> {
    HashedIndex::new(heap, places).err().map(|e| e.number())
}

// The id in a place.
fn id_at(index: &SmallSegmentMap, place: usize) -> Option<u64> {
    index.entry_at(place).map(|entry| entry.id)
}

// Runs the steps at a hashed index of that many places.
fn run_hashed(heap: Global, places: usize, steps: &[Step]) -> usize {
    HashedIndex::new(heap, places).map_or(0, |mut index| run(&mut index, steps))
}

#[cfg(test)]
mod tests {
    use super::*;
    use std::test::Fail;

    #[test]
    fn small_ends(rt: HostRuntime) {
        let mut index = SmallSegmentMap::new();
        assert_eq!(rt; run(&mut index, &ENDS), ENDS.len());
    }

    #[test]
    fn small_full(rt: HostRuntime) {
        let mut index = SmallSegmentMap::new();
        assert_eq!(rt; put_below(&mut index, 257), 256);
        assert_eq!(rt; run(&mut index, &FULL), FULL.len());
        assert_eq!(rt; id_at(&index, 0), None);
    }

    // A removed first is replaced by the list's last, and so is any other gap.
    #[test]
    fn small_places(rt: HostRuntime) {
        let mut index = SmallSegmentMap::new();
        assert_eq!(rt; put_below(&mut index, 5), 5);
        let _ = index.remove(0);
        let _ = index.remove(1);
        assert_eq!(rt; id_at(&index, 0), Some(4));
        assert_eq!(rt; id_at(&index, 1), Some(3));
        assert_eq!(rt; id_at(&index, 2), Some(2));
        assert_eq!(rt; id_at(&index, 3), None);
    }

    #[test]
    fn three_first(rt: HostRuntime) -> Result<(), Fail> {
        assert!(rt;
            three_stands_first().is_ok_and(|first| first.is_some_and(|entry| entry.id == 3))
        );
        Ok(())
    }

    #[test]
    fn hashed_range(rt: HostRuntime) {
        assert_eq!(rt; refusal(rt.alloc(), 0), Some(1));
        assert_eq!(rt; refusal(rt.alloc(), 1), None);
        assert_eq!(rt; refusal(rt.alloc(), 65536), None);
        assert_eq!(rt; refusal(rt.alloc(), 65537), Some(1));
    }

    #[test]
    fn hashed_steps(rt: HostRuntime) {
        assert_eq!(rt; run_hashed(rt.alloc(), 2, &ENDS), ENDS.len());
        assert_eq!(rt; run_hashed(rt.alloc(), 65536, &ENDS), ENDS.len());
        assert_eq!(rt; run_hashed(rt.alloc(), 1, &ONE), ONE.len());
        assert_eq!(rt; run_hashed(rt.alloc(), 4, &FOUR), FOUR.len());
    }

    // The records' ids, each at its place, and nothing else.
    #[test]
    fn holds_exactly(rt: HostRuntime) {
        let mut index = SmallSegmentMap::new();
        assert!(rt; holds(&index, &[None, None]));
        let _ = index.put(u64::MAX, 0);
        let _ = index.put(0, 2);
        assert!(rt; holds(&index, &[Some(u64::MAX), None, Some(0)]));
        assert!(rt; !holds(&index, &[None, Some(u64::MAX), Some(0)]));
        assert!(rt; !holds(&index, &[Some(u64::MAX), None, None]));
        assert!(rt; !holds(&index, &[Some(u64::MAX), Some(5), Some(0)]));
    }
}
