// Operations read from a change buffer, with their operands.
ghost use Rattle.std.specs.Prelude.{◌≤◌, length};
ghost use Rattle.layout.specs.Reads.{held};
ghost use Rattle.decode.specs.Operations.{Decodes};
ghost use Rattle.decode.specs.Runs.{Counts, ReadsOperands, Takes};

use crate::error::DecodeError;
use crate::operand::{Field, Label, Operand, Value};
use crate::table::Row;
use layout::buffer::ChangeBuffer;
use layout::operation::{BufferedOperation, OpCode};
use std::alloc::Global;

#[derive(Drop)]
pub struct Operation {
    // Where it begins in the buffer.
    pub offset: usize,
    pub opcode: OpCode,
    pub span_id: u64,
    pub operands: Vec<Operand>,
}

// The operation at `index`, which moves past it; it stays at a read that does not fit. The index goes beside the buffer,
// here and below: in a struct of both, every contract would have to say that the buffer stays.
pub fn read_operation(
    heap: Global,
    buffer: &ChangeBuffer,
    index: &mut usize,
) -> Result<Operation, DecodeError>
    ensures cases { Decodes (held buffer.now) index.old index.new result }
{
    let offset = *index;
    let head = BufferedOperation::from_buf(buffer, index)?;
    let operands = read_operands(heap, buffer, index, head.opcode)?;
    Ok(Operation {
        offset,
        opcode: head.opcode,
        span_id: head.span_id,
        operands,
    })
}

// The operands of an opcode, read in the order of its row.
fn read_operands(
    heap: Global,
    buffer: &ChangeBuffer,
    index: &mut usize,
    opcode: OpCode,
) -> Result<Vec<Operand>, DecodeError>
    requires within { index.old ≤ length (held buffer.now) }
    ensures cases { ReadsOperands opcode (held buffer.now) index.old index.new result }
{
    let mut operands = Vec::new(heap);
    match Row::of(opcode) {
        Row::Once(fields) => read_fields(buffer, index, fields, &mut operands)?,
        Row::Each(fields) => {
            let times = read_count(buffer, index, &mut operands)?;
            for _ in 0..times {
                read_fields(buffer, index, fields, &mut operands)?;
            }
        }
    }
    Ok(operands)
}

fn read_count(
    buffer: &ChangeBuffer,
    index: &mut usize,
    operands: &mut Vec<Operand>,
) -> Result<u32, DecodeError>
    requires within { index.old ≤ length (held buffer.now) }
    ensures cases { Counts (held buffer.now) index.old index.new operands.old.items operands.new.items result }
{
    let count: u32 = buffer.read(index)?;
    operands.push(Operand {
        label: Label::Count,
        value: Value::Count(count),
    })?;
    Ok(count)
}

fn read_fields(
    buffer: &ChangeBuffer,
    index: &mut usize,
    fields: &[Field],
    operands: &mut Vec<Operand>,
) -> Result<(), DecodeError>
    requires within { index.old ≤ length (held buffer.now) }
    ensures cases { Takes fields.now (held buffer.now) index.old index.new operands.old.items operands.new.items result }
{
    for field in fields {
        let value = Value::read(buffer, index, field.kind)?;
        operands.push(Operand {
            label: field.label,
            value,
        })?;
    }
    Ok(())
}
