// The call that sets a segment's sampling decisions.
ghost use Rattle.std.specs.Prelude.{◌≡◌};
ghost use Rattle.book.specs.Calls.{decisions};
ghost use Rattle.tables.specs.Lent.{SameMemory, passed};
ghost use Rattle.recorder.specs.Answers.{answer};
ghost use Rattle.recorder.specs.Decisions.{decided, decided_in};
ghost use Rattle.recorder.specs.Performs.{Changes};

use index::Index;
use refusals::ChangeBufferError;
use tables::order::check_order;
use tables::segment::{Decisions, Segment};
use tables::settings::Settings;
use tables::tables::Tables;
use texts::Text;

// All three decisions at once, none included; refused (4) where the segment does not stand.
pub fn set_decisions<T: Text, S: Index, G: Index>(
    tables: &mut Tables<'_, T>,
    segments: &mut [Segment<T>],
    settings: &mut Settings<T>,
    by_id: &mut S,
    by_segment: &mut G,
    id: u64,
    sampling: Decisions,
) -> refusals::Result<()>
    // A relation of the tables before the call and after it, which no type can hold.
    ensures memory { SameMemory tables.old tables.new }
    ensures call { Changes T.bytes
        (decisions id sampling.rule sampling.limit sampling.agent) (decided_in id sampling result)
        (passed tables.old segments.old settings.old (S.content by_id.old) (G.content by_segment.old))
        (passed tables.new segments.new settings.new (S.content by_id.new) (G.content by_segment.new))
        (answer result) }
{
    check_order(tables, segments, settings, by_id, by_segment)?;
    let place = by_segment.find(id).ok_or(ChangeBufferError::NoSegment(id))?;
    decide(&mut segments[place], sampling);
    Ok(())
}

fn decide<T: Text>(segment: &mut Segment<T>, sampling: Decisions)
    ensures { segment.new ≡ decided sampling segment.old }
{
    segment.rule = sampling.rule;
    segment.limit = sampling.limit;
    segment.agent = sampling.agent;
}
