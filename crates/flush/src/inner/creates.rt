// A create, its operands read.
// The place goes beside the buffer: in a struct of both, every contract would have to say that the buffer stays.
// `order` is a clause: it ties tables, segments, settings and both indexes, which no struct may hold together.
// `only` is a clause: it relates the tables before and after, which no type can hold.
ghost use Rattle.std.specs.Prelude.{◌≡◌, ℕ};
ghost use Rattle.layout.specs.Reads.{held};
ghost use Rattle.book.specs.Flush.{perform, create as creates};
ghost use Rattle.tables.specs.Store.{Store};
ghost use Rattle.tables.specs.InOrder.{InOrder};
ghost use Rattle.recorder.specs.Strings.{with_strings};
ghost use Rattle.operations.specs.Parts.{TextsOnly, create_parts};
ghost use Rattle.interpret.specs.Creation.{fields_of};
ghost use Rattle.flush.specs.Operation.{MakesOne};

use index::Index;
use interpret::creation::{Creation, Extra, read_creation};
use layout::buffer::ChangeBuffer;
use operations::inner::create::create;
use operations::inner::flush_tables::FlushTables;
use refusals::Result;
use tables::segment::Segment;
use tables::settings::Settings;
use texts::Text;

pub fn create_span<T: Text, S: Index, G: Index>(
    buffer: &ChangeBuffer,
    index: &mut usize,
    tables: &mut FlushTables<'_, T>,
    segments: &mut [Segment<T>],
    settings: &mut Settings<T>,
    by_id: &mut S,
    by_segment: &mut G,
    id: u64,
    extra: Extra,
) -> Result<()>
    requires order { (m : Store T) × InOrder (create_parts tables.old segments.old settings.old (S.content by_id.old) (G.content by_segment.old) m) }
    ensures played { MakesOne T.bytes id (perform (creates (fields_of extra)) id) (held buffer.now) (λ m. with_strings tables.old.strings.now (create_parts tables.old segments.old settings.old (S.content by_id.old) (G.content by_segment.old) m)) (λ m. with_strings tables.new.strings.now (create_parts tables.new segments.new settings.new (S.content by_id.new) (G.content by_segment.new) m)) index.old index.new result }
    ensures only { TextsOnly tables.old tables.new }
{
    let Creation { segment, making } = read_creation(buffer, index, tables.strings, extra)?;
    create(
        tables, segments, settings, by_id, by_segment, id, segment, making,
    )
}
