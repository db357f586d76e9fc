// A create's operands.
// The place goes beside the buffer: in a struct of both, every contract would have to say that the buffer stays.
ghost use Rattle.std.specs.Prelude.{◌≡◌, ℕ, IfOk};
ghost use Rattle.layout.specs.Reads.{held};
ghost use Rattle.book.specs.Flush.{read_fields};
ghost use Rattle.interpret.specs.Creation.{fields_of, made_writings, read_create, creation_of, RestBlank};
ghost use Rattle.interpret.specs.Played.{ReadsAs};

use layout::buffer::ChangeBuffer;
use layout::utils::TraceId;
use operations::values::Making;
use refusals::Result;
use texts::Text;

// The fields that a create has operands for, beside trace, segment and parent.
#[derive(Clone, Copy, PartialEq, Eq, Debug)]
pub enum Extra {
    Bare,
    // Name and start.
    Named,
    // Name, service, resource, type and start.
    Full,
}

// A span to be made, and the id of its segment.
#[derive(Drop)]
pub struct Creation<T> {
    pub segment: u64,
    pub making: Making<T>,
}

// A span of which no operand is read yet: no text has a byte, and every number is 0.
fn bare<T: Text>() -> Making<T>
    ensures blank { RestBlank T.bytes Extra.Bare result }
{
    Making {
        trace: TraceId::default(),
        parent: 0,
        service: T::empty(),
        name: T::empty(),
        resource: T::empty(),
        kind: T::empty(),
        start: 0,
    }
}

fn read_named<T: Text>(
    buffer: &ChangeBuffer,
    index: &mut usize,
    strings: &[Option<T>],
) -> Result<Making<T>>
    ensures reads { ReadsAs T.bytes (read_fields (fields_of Extra.Named)) strings.now (held buffer.now) index.old index.new (made_writings T.bytes Extra.Named) result }
    ensures blank { IfOk result (λ k. RestBlank T.bytes Extra.Named k) }
{
    let name = buffer.read_string(strings, index)?;
    let start: i64 = buffer.read(index)?;
    Ok(Making {
        name,
        start,
        ..bare()
    })
}

fn read_full<T: Text>(
    buffer: &ChangeBuffer,
    index: &mut usize,
    strings: &[Option<T>],
) -> Result<Making<T>>
    ensures reads { ReadsAs T.bytes (read_fields (fields_of Extra.Full)) strings.now (held buffer.now) index.old index.new (made_writings T.bytes Extra.Full) result }
{
    let name = buffer.read_string(strings, index)?;
    let service = buffer.read_string(strings, index)?;
    let resource = buffer.read_string(strings, index)?;
    let kind = buffer.read_string(strings, index)?;
    let start: i64 = buffer.read(index)?;
    Ok(Making {
        service,
        name,
        resource,
        kind,
        start,
        ..bare()
    })
}

// (A match and no table of closures, here and in `operands`: one contract would have to do for all closures of the table.)
fn read_made_fields<T: Text>(
    buffer: &ChangeBuffer,
    index: &mut usize,
    strings: &[Option<T>],
    extra: Extra,
) -> Result<Making<T>>
    ensures reads { ReadsAs T.bytes (read_fields (fields_of extra)) strings.now (held buffer.now) index.old index.new (made_writings T.bytes extra) result }
    ensures blank { IfOk result (λ k. RestBlank T.bytes extra k) }
{
    match extra {
        Extra::Bare => Ok(bare()),
        Extra::Named => read_named(buffer, index, strings),
        Extra::Full => read_full(buffer, index, strings),
    }
}

pub fn read_creation<T: Text>(
    buffer: &ChangeBuffer,
    index: &mut usize,
    strings: &[Option<T>],
    extra: Extra,
) -> Result<Creation<T>>
    ensures reads { ReadsAs T.bytes (read_create (fields_of extra)) strings.now (held buffer.now) index.old index.new (creation_of T.bytes extra) result }
    ensures blank { IfOk result (λ c. RestBlank T.bytes extra c.making) }
{
    let trace: TraceId = buffer.read(index)?;
    let segment: u64 = buffer.read(index)?;
    let parent: u64 = buffer.read(index)?;
    let fields = read_made_fields(buffer, index, strings, extra)?;
    let making = Making {
        trace,
        parent,
        ..fields
    };
    Ok(Creation { segment, making })
}
