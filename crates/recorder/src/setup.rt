// Set-up: an empty recorder in the lent tables.
ghost use Rattle.std.specs.Prelude.{◌≡◌, OnOk};
ghost use Rattle.tables.specs.Lent.{SameMemory, passed};
ghost use Rattle.recorder.specs.Setup.{SetsUp, fresh};

use index::Index;
use refusals::ChangeBufferError;
use tables::order::tables_sized;
use tables::reset::reset_all;
use tables::segment::Segment;
use tables::settings::Settings;
use tables::tables::Tables;
use texts::Text;

// Leaves every record free, and indexes, strings and defaults empty; refused (1) where the tables' lengths or the
// indexes' capacities are not as they must be.
pub fn set_up<T: Text, S: Index, G: Index>(
    tables: &mut Tables<'_, T>,
    segments: &mut [Segment<T>],
    settings: &mut Settings<T>,
    by_id: &mut S,
    by_segment: &mut G,
    service: T,
    language: T,
    pid: u32,
) -> refusals::Result<()>
    ensures memory { SameMemory tables.old tables.new }
    ensures call { SetsUp T.bytes service language pid
        (passed tables.old segments.old settings.old (S.content by_id.old) (G.content by_segment.old))
        (passed tables.new segments.new settings.new (S.content by_id.new) (G.content by_segment.new))
        result }
    ensures settings { OnOk result (settings.new ≡ fresh service language pid) }
{
    // Another question than that of the other calls, and asked here alone.
    if !tables_sized(tables, segments, settings, by_id, by_segment) {
        return Err(ChangeBufferError::OutOfOrder);
    }
    reset_all(tables.spans);
    reset_all(segments);
    reset_all(tables.strings);
    by_id.clear();
    by_segment.clear();
    *settings = Settings {
        service,
        language,
        pid,
        defaults: 0,
        next_free: 0,
    };
    Ok(())
}
