// One pair more in a row of a table, below a limit.
ghost use Rattle.std.specs.Prelude.{ℕ, ◌+◌, ◌*◌, ◌≤◌, length};
ghost use Rattle.operations.specs.Inserts.{Inserts};

use vec_map::head::Head;
use vec_map::key::Key;
use vec_map::table::insert_at;

// None where the row has as many pairs as the limit allows.
pub fn insert_below<K: Key, V: Copy>(
    table: &mut [(K, V)],
    width: usize,
    at: usize,
    limit: usize,
    head: &mut Head,
    key: K,
    value: V,
) -> Option<()>
    requires within { at * width + width ≤ length table.old }
    requires bound { limit ≤ width }
    ensures cases { Inserts width at limit table.old table.new head.old head.new (key, value) result }
{
    if head.count >= limit {
        return None;
    }
    insert_at(table, width, at, head, key, value).ok()
}
