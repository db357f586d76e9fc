// The calls on the string table. They write by index: of a slice's `get_mut` a proof learns the length alone.
ghost use Rattle.std.specs.Prelude.{Some, None};
ghost use Rattle.book.specs.Calls.{string_insert, string_evict};
ghost use Rattle.tables.specs.Lent.{SameMemory, passed};
ghost use Rattle.recorder.specs.Answers.{answer};
ghost use Rattle.recorder.specs.Performs.{Changes};
ghost use Rattle.recorder.specs.Strings.{written};

use index::Index;
use refusals::ChangeBufferError;
use tables::order::check_order;
use tables::segment::Segment;
use tables::settings::Settings;
use tables::tables::Tables;
use texts::Text;

// Puts a string under a number, in place of what stood there; refused (3) where the table has no such number.
pub fn string_table_insert_one<T: Text, S: Index, G: Index>(
    tables: &mut Tables<'_, T>,
    segments: &mut [Segment<T>],
    settings: &mut Settings<T>,
    by_id: &mut S,
    by_segment: &mut G,
    key: u32,
    val: T,
) -> refusals::Result<()>
    ensures memory { SameMemory tables.old tables.new }
    ensures call { Changes T.bytes
        (string_insert key (T.bytes val)) (written key (Some val) result)
        (passed tables.old segments.old settings.old (S.content by_id.old) (G.content by_segment.old))
        (passed tables.new segments.new settings.new (S.content by_id.new) (G.content by_segment.new))
        (answer result) }
{
    check_order(tables, segments, settings, by_id, by_segment)?;
    let place = key as usize;
    if place >= tables.strings.len() {
        return Err(ChangeBufferError::KeyBeyond);
    }
    tables.strings[place] = Some(val);
    Ok(())
}

// Takes a string out; nothing past the table's end.
pub fn string_table_evict_one<T: Text, S: Index, G: Index>(
    tables: &mut Tables<'_, T>,
    segments: &mut [Segment<T>],
    settings: &mut Settings<T>,
    by_id: &mut S,
    by_segment: &mut G,
    key: u32,
) -> refusals::Result<()>
    ensures memory { SameMemory tables.old tables.new }
    ensures call { Changes T.bytes
        (string_evict key) (written key None result)
        (passed tables.old segments.old settings.old (S.content by_id.old) (G.content by_segment.old))
        (passed tables.new segments.new settings.new (S.content by_id.new) (G.content by_segment.new))
        (answer result) }
{
    check_order(tables, segments, settings, by_id, by_segment)?;
    let place = key as usize;
    if place < tables.strings.len() {
        tables.strings[place] = None;
    }
    Ok(())
}
