// Operations on tables in order: the operands are read one after another, and the first that fails ends the operation.
pub mod batches;
pub mod segments;
pub mod spans;
