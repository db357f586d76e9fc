// What an opcode stands for.
ghost use Rattle.std.specs.Prelude.{◌≡◌, Some};
ghost use Rattle.layout.specs.OpCodes.{code};
ghost use Rattle.book.specs.Maps.{find};
ghost use Rattle.book.specs.Flush.{table};
ghost use Rattle.flush.specs.Operation.{meaning};

use interpret::attributes::FieldName;
use interpret::creation::Extra;
use layout::operation::OpCode;
use operations::values::PairKind;

// An operation on a live span.
#[derive(Clone, Copy, PartialEq, Eq, Debug)]
pub enum OnSpan {
    Pair(PairKind),
    Field(FieldName),
    Batch(PairKind),
}

// An operation on the segment of a live span.
#[derive(Clone, Copy, PartialEq, Eq, Debug)]
pub enum OnSegment {
    Pair(PairKind),
    Origin,
}

#[derive(Clone, Copy, PartialEq, Eq, Debug)]
pub enum Operation {
    Creates(Extra),
    Spans(OnSpan),
    Segments(OnSegment),
}

// A function and not a `From`, whose answer the specs would have to give by a second table beside the book's.
// A match and no table of closures, since one contract would have to do for all closures of the table.
pub fn operation_of(opcode: OpCode) -> Operation
    ensures { find (code opcode) table ≡ Some (meaning result) }
{
    match opcode {
        OpCode::Create => Operation::Creates(Extra::Bare),
        OpCode::CreateSpan => Operation::Creates(Extra::Named),
        OpCode::CreateSpanFull => Operation::Creates(Extra::Full),
        OpCode::SetMetaAttr => Operation::Spans(OnSpan::Pair(PairKind::Meta)),
        OpCode::SetMetricAttr => Operation::Spans(OnSpan::Pair(PairKind::Metric)),
        OpCode::SetServiceName => Operation::Spans(OnSpan::Field(FieldName::Service)),
        OpCode::SetResourceName => Operation::Spans(OnSpan::Field(FieldName::Resource)),
        OpCode::SetType => Operation::Spans(OnSpan::Field(FieldName::Kind)),
        OpCode::SetName => Operation::Spans(OnSpan::Field(FieldName::Name)),
        OpCode::SetError => Operation::Spans(OnSpan::Field(FieldName::Error)),
        OpCode::SetStart => Operation::Spans(OnSpan::Field(FieldName::Start)),
        OpCode::SetDuration => Operation::Spans(OnSpan::Field(FieldName::Duration)),
        OpCode::BatchSetMeta => Operation::Spans(OnSpan::Batch(PairKind::Meta)),
        OpCode::BatchSetMetric => Operation::Spans(OnSpan::Batch(PairKind::Metric)),
        OpCode::SetTraceMetaAttr => Operation::Segments(OnSegment::Pair(PairKind::Meta)),
        OpCode::SetTraceMetricsAttr => Operation::Segments(OnSegment::Pair(PairKind::Metric)),
        OpCode::SetTraceOrigin => Operation::Segments(OnSegment::Origin),
    }
}
