// What operations write, by name, as the opcodes say it.

// The fields of a span that an operation sets.
#[derive(Clone, Copy, PartialEq, Eq, Debug)]
pub enum FieldName {
    Service,
    Resource,
    // The span's type.
    Kind,
    Name,
    Error,
    Start,
    Duration,
}
