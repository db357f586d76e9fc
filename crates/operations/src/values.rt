// What operations write.
use layout::utils::TraceId;

// A field of a span that an operation sets, with its new value.
#[derive(Drop)]
pub enum SpanField<T> {
    Service(T),
    Resource(T),
    Kind(T),
    Name(T),
    Error(i32),
    Start(i64),
    Duration(i64),
}

// A pair of two texts, or of a text and a number.
#[derive(Clone, Copy, PartialEq, Eq, Debug)]
pub enum PairKind {
    Meta,
    Metric,
}

// A pair that an operation adds to a row. The number of a number pair goes by its bits.
#[derive(Drop)]
pub enum Pair<T> {
    Meta(T, T),
    Metric(T, u64),
}

// What a create's operands give.
#[derive(Drop)]
pub struct Making<T> {
    pub trace: TraceId,
    pub parent: u64,
    pub service: T,
    pub name: T,
    pub resource: T,
    // The span's type.
    pub kind: T,
    pub start: i64,
}
