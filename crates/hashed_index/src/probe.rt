// The way round the places of a hashed index, and what a removal moves there.
ghost use Rattle.std.specs.Prelude.{◌≡◌, ℕ, ◌%◌, ◌<◌, length, None, MatchOption, slice_index_or};
ghost use Rattle.index.specs.Held.{at};
ghost use Rattle.hashed_index.specs.Places.{dist, Alone, Reached, Nearly, kept};
ghost use Rattle.hashed_index.specs.Spots.{Cut};

use index::entry::Entry;

// Where an id stands, with its number, or where it may be put: three answers, and no Option or Result has three.
#[derive(Clone, Copy, PartialEq, Eq, Debug)]
pub(crate) enum Spot {
    At(usize, usize),
    Free(usize),
    Nowhere,
}

// The steps from one of `n` places to another, round the end.
fn gap(n: usize, from: usize, to: usize) -> usize
    requires { (from < n) × (to < n) }
    ensures { result ≡ dist n from to }
{
    if from <= to { to - from } else { n - from + to }
}

// The place that many steps on.
pub(crate) fn along(n: usize, from: usize, steps: usize) -> usize
    requires { (from < n) × (steps < n) }
    ensures within { result < n }
    ensures value { dist n from result ≡ steps }
{
    let to_end = n - from;
    if steps < to_end {
        from + steps
    } else {
        steps - to_end
    }
}

// The place from which an id is looked for.
pub(crate) fn start(n: usize, id: u64) -> usize
    requires { 0 < n }
    ensures within { result < n }
    ensures value { result ≡ id % n }
{
    (id % n as u64) as usize
}

// An entry that a search would not reach across the free place `hole`.
fn cut_off(places: &[Option<Entry>], hole: usize) -> Option<usize>
    requires within { hole < length places.now }
    requires free { slice_index_or places.now hole None ≡ None }
    requires nearly { Nearly places.now hole }
    ensures { MatchOption result (Reached places.now) (λ j. Cut places.now hole j) }
{
    let n = places.len();
    for step in 1..n {
        let j = along(n, hole, step);
        let e = places[j]?;
        let from = start(n, e.id);
        if gap(n, from, j) >= step {
            return Some(j);
        }
    }
    None
}

// Moves entries back over a free place until every search reaches its entry.
pub(crate) fn settle(places: &mut [Option<Entry>], mut hole: usize)
    requires within { hole < length places.old }
    requires free { slice_index_or places.old hole None ≡ None }
    requires nearly { Nearly places.old hole }
    requires alone { Alone places.old }
    ensures reached { Reached places.new }
    ensures alone { Alone places.new }
    ensures same { (q : ℕ) → at (kept places.new) q ≡ at (kept places.old) q }
    ensures len { length (kept places.new) ≡ length (kept places.old) }
{
    while let Some(j) = cut_off(places, hole) {
        places.swap(hole, j);
        hole = j;
    }
}
