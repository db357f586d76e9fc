// What a pair map does on the memory of its row.
ghost use Rattle.std.specs.Prelude.{◌≡◌, List, ◌++◌, length, take, drop};
ghost use Rattle.std.specs.Option.{option_map};
ghost use Rattle.vec_map.specs.Rows.{last_value, known, firsts, without_repeats, deduped_room};

use crate::key::Key;

// The first `len` pairs.
pub fn front<K: Key, V: Copy>(row: &[(K, V)], len: usize) -> &[(K, V)]
    ensures { result.now ≡ take len row.now }
{
    row.get(..len).unwrap_or(row)
}

// The value of the last pair with the key.
pub fn value_of<'a, K: Key, V: Copy>(row: &'a [(K, V)], key: &K) -> Option<&'a V>
    ensures { option_map (λ x. x.now) result ≡ last_value K.alike key.now row.now }
{
    row.iter()
        .rev()
        .find(|pair| pair.0.same_key(key))
        .map(|pair| &pair.1)
}

// Whether one of the pairs has the key.
fn has_key<K: Key, V: Copy>(row: &[(K, V)], key: &K) -> bool
    ensures { result ≡ known K.alike key.now row.now }
{
    row.iter().any(|pair| pair.0.same_key(key))
}

// Takes the repeats out of the first `len` pairs, and says how many are left.
pub fn dedup<K: Key, V: Copy>(row: &mut [(K, V)], len: usize) -> usize
    ensures count { result ≡ length (without_repeats K.alike (take len row.old)) }
    ensures room { row.new ≡ deduped_room K.alike len row.old }
{
    let end = len.min(row.len());
    let part = &mut row[..end];
    part.reverse();
    keep_firsts(part)
}

// Moves each key's first pair to the front, and says how many there are. By places: the row is written as it is read.
fn keep_firsts<K: Key, V: Copy>(row: &mut [(K, V)]) -> usize
    ensures count { result ≡ length (firsts K.alike List.[] row.old) }
    ensures room { row.new ≡ firsts K.alike List.[] row.old ++ drop (length (firsts K.alike List.[] row.old)) row.old }
{
    let mut count = 0;
    for i in 0..row.len() {
        let pair = row[i];
        if !has_key(&row[..count], &pair.0) {
            row[count] = pair;
            count += 1;
        }
    }
    count
}
