// Operations in words: a line for each, in columns.
use crate::operand::{Operand, Value};
use crate::operation::Operation;
use std::fmt;
use std::num::f64_from_bits_with_nan;

impl fmt::Display for Value {
    fn fmt<W: fmt::Write>(&self, f: &mut fmt::Formatter<W>) -> fmt::Result {
        match self {
            Value::Trace(trace) => write!(f, "0x{:016x}{:016x}", trace.high, trace.low),
            Value::Id(id) => fmt::Display::fmt(id, f),
            Value::Text(string) => write!(f, "string {string}"),
            Value::Float(bits) => {
                let number = f64_from_bits_with_nan(*bits);
                fmt::Debug::fmt(&number, f)
            }
            Value::Long(number) => fmt::Display::fmt(number, f),
            Value::Int(number) => fmt::Display::fmt(number, f),
            Value::Count(count) => fmt::Display::fmt(count, f),
        }
    }
}

impl fmt::Display for Operand {
    fn fmt<W: fmt::Write>(&self, f: &mut fmt::Formatter<W>) -> fmt::Result {
        write!(f, "{} {}", self.label, self.value)
    }
}

impl fmt::Display for Operation {
    fn fmt<W: fmt::Write>(&self, f: &mut fmt::Formatter<W>) -> fmt::Result {
        write!(
            f,
            "{:>6}  {:<19}  span {:<4}",
            self.offset,
            self.opcode.name(),
            self.span_id
        )?;
        for operand in &self.operands {
            write!(f, "  {operand}")?;
        }
        Ok(())
    }
}
