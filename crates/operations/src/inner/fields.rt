// A field of a live span.
ghost use Rattle.std.specs.Prelude.{◌≡◌, ℕ, ◌<◌, length, Ok};
ghost use Rattle.operations.specs.Done.{OnSpanHeld};
ghost use Rattle.operations.specs.Fields.{with_field, field_written};
ghost use Rattle.operations.specs.Parts.{with_spans};

use crate::values::SpanField;
use index::entry::Entry;
use tables::span::Span;
use texts::Text;

// Sets a field of the live span that was found.
pub fn set_field<T: Text>(spans: &mut [Span<T>], found: Entry, field: SpanField<T>)
    requires within { found.number < length spans.old }
    ensures done { OnSpanHeld T.bytes found.id found.number (field_written T.bytes field) (with_spans spans.old) (with_spans spans.new) (Ok tt) }
{
    write_field(&mut spans[found.number], field);
}

// (A match on the field: a closure for each would be no plainer.)
fn write_field<T: Text>(span: &mut Span<T>, field: SpanField<T>)
    ensures { span.new ≡ with_field field span.old }
{
    match field {
        SpanField::Service(t) => span.service = t,
        SpanField::Resource(t) => span.resource = t,
        SpanField::Kind(t) => span.kind = t,
        SpanField::Name(t) => span.name = t,
        SpanField::Error(n) => span.error = n,
        SpanField::Start(n) => span.start = n,
        SpanField::Duration(n) => span.duration = n,
    }
}
