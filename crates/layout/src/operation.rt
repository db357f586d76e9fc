// Change buffer operations: their opcodes, and how each begins.
ghost use Rattle.std.specs.Prelude.{◌≡◌};
ghost use Rattle.layout.specs.OpCodes.{Names, NamesOnly, code, name_of};
ghost use Rattle.layout.specs.Reads.{ReadsOperation, held};

use crate::buffer::ChangeBuffer;
use refusals::{ChangeBufferError, Result};

// The code of an operation that can be encoded in a `ChangeBuffer`.
#[derive(Clone, Copy, PartialEq, Eq, Debug)]
pub enum OpCode {
    Create = 0,
    SetMetaAttr = 1,
    SetMetricAttr = 2,
    SetServiceName = 3,
    SetResourceName = 4,
    SetError = 5,
    SetStart = 6,
    SetDuration = 7,
    SetType = 8,
    SetName = 9,
    SetTraceMetaAttr = 10,
    SetTraceMetricsAttr = 11,
    SetTraceOrigin = 12,
    // Create, name and start in one.
    CreateSpan = 13,
    // Create, name, service, resource, type and start in one.
    CreateSpanFull = 14,
    // Several text pairs for one span.
    BatchSetMeta = 15,
    // Several number pairs for one span.
    BatchSetMetric = 16,
}

impl TryFrom<u16> for OpCode {
    type Error = ChangeBufferError;

    ghost try_from_gives = { Names };

    fn try_from(val: u16) -> Result<OpCode> {
        match val {
            0 => Ok(OpCode::Create),
            1 => Ok(OpCode::SetMetaAttr),
            2 => Ok(OpCode::SetMetricAttr),
            3 => Ok(OpCode::SetServiceName),
            4 => Ok(OpCode::SetResourceName),
            5 => Ok(OpCode::SetError),
            6 => Ok(OpCode::SetStart),
            7 => Ok(OpCode::SetDuration),
            8 => Ok(OpCode::SetType),
            9 => Ok(OpCode::SetName),
            10 => Ok(OpCode::SetTraceMetaAttr),
            11 => Ok(OpCode::SetTraceMetricsAttr),
            12 => Ok(OpCode::SetTraceOrigin),
            13 => Ok(OpCode::CreateSpan),
            14 => Ok(OpCode::CreateSpanFull),
            15 => Ok(OpCode::BatchSetMeta),
            16 => Ok(OpCode::BatchSetMetric),
            _ => Err(ChangeBufferError::UnknownOpcode(val as u32)),
        }
    }
}

// The number from which `try_from` gives this opcode again.
impl From<OpCode> for u16 {
    ghost from_gives = { λ opcode number. (number ≡ code opcode) × NamesOnly number opcode };

    fn from(opcode: OpCode) -> u16 {
        opcode as u16
    }
}

impl OpCode {
    // By hand: the derived `Debug` writes the same words, but hands out no `str`.
    pub fn name(self) -> &'static str
        ensures value { result.now ≡ name_of self }
    {
        match self {
            OpCode::Create => "Create",
            OpCode::SetMetaAttr => "SetMetaAttr",
            OpCode::SetMetricAttr => "SetMetricAttr",
            OpCode::SetServiceName => "SetServiceName",
            OpCode::SetResourceName => "SetResourceName",
            OpCode::SetError => "SetError",
            OpCode::SetStart => "SetStart",
            OpCode::SetDuration => "SetDuration",
            OpCode::SetType => "SetType",
            OpCode::SetName => "SetName",
            OpCode::SetTraceMetaAttr => "SetTraceMetaAttr",
            OpCode::SetTraceMetricsAttr => "SetTraceMetricsAttr",
            OpCode::SetTraceOrigin => "SetTraceOrigin",
            OpCode::CreateSpan => "CreateSpan",
            OpCode::CreateSpanFull => "CreateSpanFull",
            OpCode::BatchSetMeta => "BatchSetMeta",
            OpCode::BatchSetMetric => "BatchSetMetric",
        }
    }
}

// How an operation begins: its opcode and the span that it is about.
#[derive(Clone, Copy, PartialEq, Eq, Debug)]
pub struct BufferedOperation {
    pub opcode: OpCode,
    pub span_id: u64,
}

impl BufferedOperation {
    pub fn from_buf(buf: &ChangeBuffer, index: &mut usize) -> Result<BufferedOperation>
        ensures cases { ReadsOperation (held buf.now) index.old index.new result }
    {
        let number: u16 = buf.read(index)?;
        let opcode = OpCode::try_from(number)?;
        let span_id: u64 = buf.read(index)?;
        Ok(BufferedOperation { opcode, span_id })
    }
}
