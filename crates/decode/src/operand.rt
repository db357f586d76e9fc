// Operands of an operation: what each is called, how it lies in the buffer, and its value.
ghost use Rattle.std.specs.Prelude.{◌≡◌, Some};
ghost use Rattle.layout.specs.Reads.{Reads, held};
ghost use Rattle.decode.specs.Operands.{label_name, meant, size};

use layout::buffer::ChangeBuffer;
use layout::utils::TraceId;
use refusals::Result;
use std::fmt;

// What an operand is called.
#[derive(Clone, Copy, PartialEq, Eq, Debug)]
pub enum Label {
    Trace,
    Segment,
    Parent,
    Key,
    Value,
    Name,
    Service,
    Resource,
    Type,
    Start,
    Duration,
    Error,
    Origin,
    Count,
}

impl Label {
    pub fn name(self) -> &'static str
        ensures value { result.now ≡ label_name self }
    {
        match self {
            Label::Trace => "trace",
            Label::Segment => "segment",
            Label::Parent => "parent",
            Label::Key => "key",
            Label::Value => "value",
            Label::Name => "name",
            Label::Service => "service",
            Label::Resource => "resource",
            Label::Type => "type",
            Label::Start => "start",
            Label::Duration => "duration",
            Label::Error => "error",
            Label::Origin => "origin",
            Label::Count => "count",
        }
    }
}

// In the words of a listing; the derived `Debug` writes those of the code.
impl fmt::Display for Label {
    ghost output = { λ l. Some (label_name l) };

    fn fmt<W: fmt::Write>(&self, f: &mut fmt::Formatter<W>) -> fmt::Result {
        f.write_str(self.name())
    }
}

// How an operand lies in the buffer.
#[derive(Clone, Copy, PartialEq, Eq, Debug)]
pub enum Kind {
    Trace,
    Id,
    Text,
    Float,
    Long,
    Int,
    Count,
}

// An operand that an opcode asks for.
#[derive(Clone, Copy, PartialEq, Eq, Debug)]
pub struct Field {
    pub label: Label,
    pub kind: Kind,
}

#[derive(Clone, Copy, PartialEq, Eq, Debug)]
pub enum Value {
    Trace(TraceId),
    Id(u64),
    // The number of a string.
    Text(u32),
    // The bits of an f64, so that every not-a-number stays as it is.
    Float(u64),
    Long(i64),
    Int(i32),
    Count(u32),
}

#[derive(Clone, Copy, PartialEq, Eq, Debug)]
pub struct Operand {
    pub label: Label,
    pub value: Value,
}

impl Value {
    // The value of a kind at `index`, which moves past it; it stays where the value does not fit.
    // (A match, here and in `Row::of`: one contract would have to do for all closures of a table.)
    pub fn read(buffer: &ChangeBuffer, index: &mut usize, kind: Kind) -> Result<Value>
        ensures cases { Reads (meant kind) (size kind) (held buffer.now) index.old index.new result }
    {
        match kind {
            Kind::Trace => buffer.read(index).map(Value::Trace),
            Kind::Id => buffer.read(index).map(Value::Id),
            Kind::Text => buffer.read(index).map(Value::Text),
            Kind::Float => buffer.read(index).map(Value::Float),
            Kind::Long => buffer.read(index).map(Value::Long),
            Kind::Int => buffer.read(index).map(Value::Int),
            Kind::Count => buffer.read(index).map(Value::Count),
        }
    }
}
