// The operations on tables in order, to which their caller sees. Those that are lent all tables say which alone they change.
pub mod create;
pub mod fields;
pub mod flush_tables;
pub mod pairs;
pub mod places;
pub mod rows;
pub mod segments;
