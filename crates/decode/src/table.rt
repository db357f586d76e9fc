// The operands of each opcode.
ghost use Rattle.std.specs.Prelude.{◌≡◌};
ghost use Rattle.decode.specs.Table.{table};
ghost use Rattle.decode.specs.Rows.{shown};

use crate::operand::{Field, Kind, Label};
use layout::operation::OpCode;

// The operands of an opcode.
#[derive(Clone, Copy, PartialEq, Eq, Debug)]
pub enum Row {
    // These once.
    Once(&'static [Field]),
    // These as often as a count in front says.
    Each(&'static [Field]),
}

const TRACE: Field = Field {
    label: Label::Trace,
    kind: Kind::Trace,
};

const SEGMENT: Field = Field {
    label: Label::Segment,
    kind: Kind::Id,
};

const PARENT: Field = Field {
    label: Label::Parent,
    kind: Kind::Id,
};

const KEY: Field = Field {
    label: Label::Key,
    kind: Kind::Text,
};

const TEXT: Field = Field {
    label: Label::Value,
    kind: Kind::Text,
};

const NUMBER: Field = Field {
    label: Label::Value,
    kind: Kind::Float,
};

const NAME: Field = Field {
    label: Label::Name,
    kind: Kind::Text,
};

const SERVICE: Field = Field {
    label: Label::Service,
    kind: Kind::Text,
};

const RESOURCE: Field = Field {
    label: Label::Resource,
    kind: Kind::Text,
};

const TYPE: Field = Field {
    label: Label::Type,
    kind: Kind::Text,
};

const START: Field = Field {
    label: Label::Start,
    kind: Kind::Long,
};

const DURATION: Field = Field {
    label: Label::Duration,
    kind: Kind::Long,
};

const ERROR: Field = Field {
    label: Label::Error,
    kind: Kind::Int,
};

const ORIGIN: Field = Field {
    label: Label::Origin,
    kind: Kind::Text,
};

impl Row {
    pub fn of(opcode: OpCode) -> Row
        ensures value { shown result ≡ table opcode }
    {
        match opcode {
            OpCode::Create => Row::Once(&[TRACE, SEGMENT, PARENT]),
            OpCode::SetMetaAttr | OpCode::SetTraceMetaAttr => Row::Once(&[KEY, TEXT]),
            OpCode::SetMetricAttr | OpCode::SetTraceMetricsAttr => Row::Once(&[KEY, NUMBER]),
            OpCode::SetServiceName => Row::Once(&[SERVICE]),
            OpCode::SetResourceName => Row::Once(&[RESOURCE]),
            OpCode::SetError => Row::Once(&[ERROR]),
            OpCode::SetStart => Row::Once(&[START]),
            OpCode::SetDuration => Row::Once(&[DURATION]),
            OpCode::SetType => Row::Once(&[TYPE]),
            OpCode::SetName => Row::Once(&[NAME]),
            OpCode::SetTraceOrigin => Row::Once(&[ORIGIN]),
            OpCode::CreateSpan => Row::Once(&[TRACE, SEGMENT, PARENT, NAME, START]),
            OpCode::CreateSpanFull => Row::Once(&[
                TRACE, SEGMENT, PARENT, NAME, SERVICE, RESOURCE, TYPE, START,
            ]),
            OpCode::BatchSetMeta => Row::Each(&[KEY, TEXT]),
            OpCode::BatchSetMetric => Row::Each(&[KEY, NUMBER]),
        }
    }
}
