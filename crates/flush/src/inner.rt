// Operations by their opcodes, on tables in order.
pub mod creates;
pub mod flushing;
pub mod found;
pub mod segments;
pub mod spans;
