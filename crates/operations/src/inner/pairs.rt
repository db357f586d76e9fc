// One pair more on a live span.
// `only` is a clause: it relates the tables before and after, which no type can hold.
ghost use Rattle.operations.specs.Done.{OnSpanHeld};
ghost use Rattle.operations.specs.Fields.{kind_of, pair_written};
ghost use Rattle.operations.specs.Parts.{HasRow, PairOnly, with_pairs};

use crate::inner::flush_tables::FlushTables;
use crate::inner::rows::insert_below;
use crate::values::Pair;
use index::entry::Entry;
use refusals::{ChangeBufferError, Result};
use tables::span::{NUMBER_LIMIT, NUMBER_ROW, TEXT_LIMIT, TEXT_ROW};
use texts::Text;

// A pair on the live span that was found. Refused (13) where its row has no place for one more. (Two arms: tables, widths,
// limits and heads differ, here and on segments, and a trait that gives all four for each would be no plainer.)
pub fn add_pair<T: Text>(tables: &mut FlushTables<'_, T>, found: Entry, pair: Pair<T>) -> Result<()>
    requires row { HasRow (kind_of pair) tables.old found.number }
    ensures done { OnSpanHeld T.bytes found.id found.number (pair_written T.bytes pair) (with_pairs (kind_of pair) tables.old) (with_pairs (kind_of pair) tables.new) result }
    ensures row { HasRow (kind_of pair) tables.new found.number }
    ensures only { PairOnly (kind_of pair) tables.old tables.new }
{
    let number = found.number;
    match pair {
        Pair::Meta(key, value) => {
            let head = &mut tables.spans[number].meta;
            insert_below(
                tables.span_meta,
                TEXT_ROW,
                number,
                TEXT_LIMIT,
                head,
                key,
                value,
            )
        }
        Pair::Metric(key, bits) => {
            let head = &mut tables.spans[number].metrics;
            insert_below(
                tables.span_metrics,
                NUMBER_ROW,
                number,
                NUMBER_LIMIT,
                head,
                key,
                bits,
            )
        }
    }
    .ok_or(ChangeBufferError::RowFull(found.id))
}
