// What operations write, read from a buffer.
// The place goes beside the buffer: in a struct of both, every contract would have to say that the buffer stays.
ghost use Rattle.std.specs.Prelude.{◌≡◌, ℕ, IfOk};
ghost use Rattle.layout.specs.Reads.{held};
ghost use Rattle.book.specs.Flush.{read_attribute};
ghost use Rattle.operations.specs.Fields.{field_written, kind_of, pair_written};
ghost use Rattle.interpret.specs.Attributes.{attribute_of, pair_attribute};
ghost use Rattle.interpret.specs.Played.{ReadsAs};

use crate::attributes::FieldName;
use layout::buffer::ChangeBuffer;
use operations::values::{Pair, PairKind, SpanField};
use refusals::Result;
use texts::Text;
use vec_map::float::float_bits;

// A pair: a key and a text from the string table, or a key and a float, which goes by its bits. Inlined, as `set_pair` is:
// measured, a batch of text pairs takes half as many instructions so.
#[inline(always)]
pub fn read_pair<T: Text>(
    buffer: &ChangeBuffer,
    index: &mut usize,
    strings: &[Option<T>],
    kind: PairKind,
) -> Result<Pair<T>>
    ensures reads { ReadsAs T.bytes (read_attribute (pair_attribute kind)) strings.now (held buffer.now) index.old index.new (pair_written T.bytes) result }
    ensures kind { IfOk result (λ p. kind_of p ≡ kind) }
{
    let key = buffer.read_string(strings, index)?;
    match kind {
        PairKind::Meta => {
            let value = buffer.read_string(strings, index)?;
            Ok(Pair::Meta(key, value))
        }
        PairKind::Metric => {
            let value: f64 = buffer.read(index)?;
            Ok(Pair::Metric(key, float_bits(value)))
        }
    }
}

// The new value of a span's field. (By `?` and not by `map`: the check of borrows does not cover a variant that is passed
// as a function where its argument does not name T.)
pub fn read_field<T: Text>(
    buffer: &ChangeBuffer,
    index: &mut usize,
    strings: &[Option<T>],
    name: FieldName,
) -> Result<SpanField<T>>
    ensures reads { ReadsAs T.bytes (read_attribute (attribute_of name)) strings.now (held buffer.now) index.old index.new (field_written T.bytes) result }
{
    match name {
        FieldName::Service => Ok(SpanField::Service(buffer.read_string(strings, index)?)),
        FieldName::Resource => Ok(SpanField::Resource(buffer.read_string(strings, index)?)),
        FieldName::Kind => Ok(SpanField::Kind(buffer.read_string(strings, index)?)),
        FieldName::Name => Ok(SpanField::Name(buffer.read_string(strings, index)?)),
        FieldName::Error => Ok(SpanField::Error(buffer.read(index)?)),
        FieldName::Start => Ok(SpanField::Start(buffer.read(index)?)),
        FieldName::Duration => Ok(SpanField::Duration(buffer.read(index)?)),
    }
}
