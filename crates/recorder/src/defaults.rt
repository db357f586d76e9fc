// The call that sets the default pairs, which every new span gets.
ghost use Rattle.std.specs.Prelude.{◌≡◌, map, length};
ghost use Rattle.book.specs.Calls.{default_meta};
ghost use Rattle.tables.specs.Lent.{SameMemory, passed};
ghost use Rattle.tables.specs.Shows.{text_pair};
ghost use Rattle.recorder.specs.Answers.{answer};
ghost use Rattle.recorder.specs.Defaults.{Replaces, replaced};
ghost use Rattle.recorder.specs.Performs.{Changes};

use index::Index;
use refusals::ChangeBufferError;
use tables::order::check_order;
use tables::segment::Segment;
use tables::settings::Settings;
use tables::tables::{MOST_DEFAULTS, Tables};
use texts::Text;

// These pairs in place of the last list; refused (2) where they are more than 32.
pub fn set_default_meta<T: Text, S: Index, G: Index>(
    tables: &mut Tables<'_, T>,
    segments: &mut [Segment<T>],
    settings: &mut Settings<T>,
    by_id: &mut S,
    by_segment: &mut G,
    pairs: &[(T, T)],
) -> refusals::Result<()>
    ensures memory { SameMemory tables.old tables.new }
    ensures call { Changes T.bytes
        (default_meta (map (text_pair T.bytes) pairs.now)) (replaced pairs.now result)
        (passed tables.old segments.old settings.old (S.content by_id.old) (G.content by_segment.old))
        (passed tables.new segments.new settings.new (S.content by_id.new) (G.content by_segment.new))
        (answer result) }
{
    check_order(tables, segments, settings, by_id, by_segment)?;
    replace(tables.defaults, settings, pairs)
}

// Apart from the call, since of a part that is borrowed through a field a proof learns the length alone.
fn replace<T: Text>(
    defaults: &mut [(T, T)],
    settings: &mut Settings<T>,
    pairs: &[(T, T)],
) -> refusals::Result<()>
    requires { length defaults.old ≡ MOST_DEFAULTS }
    ensures { Replaces pairs.now defaults.old defaults.new settings.old settings.new result }
{
    let count = pairs.len();
    if count > MOST_DEFAULTS {
        return Err(ChangeBufferError::TooManyDefaults);
    }
    defaults[..count].copy_from_slice(pairs);
    settings.defaults = count;
    Ok(())
}
