// Rows of a flat table: row `at` of a table with rows of `width` pairs, and the count and mark that belong to it.
ghost use Rattle.std.specs.Prelude.{◌≡◌, ◌+◌, ◌*◌, ◌<◌, ◌≤◌, not, ◌&&◌, is_ok, MatchOption};
ghost use Rattle.vec_map.specs.Rows.{full, insert_row, dedup_row};
ghost use Rattle.vec_map.specs.Tables.{headed, row, in_table, changed, changed_row, OthersStay};

use crate::VecMap;
use crate::head::Head;
use crate::key::Key;

// One pair more in a row. A full row hands the pair back. (This and `dedup_row` open the map, change it and keep its head, each
// for itself: taken as a closure the change would stand in no clause.)
pub fn insert_row<K: Key, V: Copy>(
    row: &mut [(K, V)],
    head: &mut Head,
    key: K,
    value: V,
) -> Result<(), (K, V)>
    ensures test { is_ok result ≡ not (full (headed row.old head.old)) }
    ensures row { headed row.new head.new ≡ insert_row (headed row.old head.old) key value }
{
    let mut map = VecMap::new(row, *head);
    let answer = map.insert(key, value);
    *head = map.head();
    answer
}

// The repeats of a row taken out.
pub fn dedup_row<K: Key, V: Copy>(row: &mut [(K, V)], head: &mut Head)
    ensures { headed row.new head.new ≡ dedup_row K.alike (headed row.old head.old) }
{
    let mut map = VecMap::new(row, *head);
    map.dedup();
    *head = map.head();
}

// Where a row begins, none where it is not wholly in a table of `len` pairs.
fn row_start(width: usize, at: usize, len: usize) -> Option<usize>
    ensures { MatchOption result (len < at * width + width) (λ from. (from ≡ at * width) × (at * width + width ≤ len)) }
{
    let from = at.checked_mul(width)?;
    let end = from.checked_add(width)?;
    (end <= len).then_some(from)
}

// One pair more in row `at`; every other row stays as it is. A full row, or one that is not in the table, hands the
// pair back. (The table goes with its width, here and in `dedup_at`: a struct over both would need a clause at each change
// that it is the same memory still.)
pub fn insert_at<K: Key, V: Copy>(
    table: &mut [(K, V)],
    width: usize,
    at: usize,
    head: &mut Head,
    key: K,
    value: V,
) -> Result<(), (K, V)>
    ensures test { is_ok result ≡ (in_table width at table.old && not (full (headed (row width at table.old) head.old))) }
    ensures table { table.new ≡ changed (λ r. insert_row r key value) width at table.old head.old }
    ensures row { headed (row width at table.new) head.new ≡ changed_row (λ r. insert_row r key value) width at table.old head.old }
    ensures others { OthersStay width at table.old table.new }
{
    match row_start(width, at, table.len()) {
        Some(from) => insert_row(&mut table[from..from + width], head, key, value),
        None => Err((key, value)),
    }
}

// The repeats of row `at` taken out; every other row stays as it is. Nothing where the row is not in the table.
pub fn dedup_at<K: Key, V: Copy>(table: &mut [(K, V)], width: usize, at: usize, head: &mut Head)
    ensures table { table.new ≡ changed (dedup_row K.alike) width at table.old head.old }
    ensures row { headed (row width at table.new) head.new ≡ changed_row (dedup_row K.alike) width at table.old head.old }
    ensures others { OthersStay width at table.old table.new }
{
    if let Some(from) = row_start(width, at, table.len()) {
        dedup_row(&mut table[from..from + width], head);
    }
}
