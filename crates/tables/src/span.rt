// Span records.
use layout::utils::TraceId;
use vec_map::head::Head;

// What a record is: in use by a live span, handed out with a chunk, or free.
#[derive(Clone, Copy, PartialEq, Eq, Debug)]
pub enum Mark {
    Free,
    Live,
    HandedOut,
}

// How many text pairs and number pairs the rows of a span take, and how many of them operations may write: a chunk's tags
// fit in besides.
pub const TEXT_ROW: usize = 99;

pub const TEXT_LIMIT: usize = 64;

pub const NUMBER_ROW: usize = 54;

pub const NUMBER_LIMIT: usize = 32;

// A span: one belt, scanner or diverter on a parcel's trip. Its pairs stand in the rows of its number, as many as the
// heads say. What is asked of every record comes first, so that it lies close together.
#[derive(Drop)]
pub struct Span<T> {
    pub mark: Mark,
    pub id: u64,
    // The id of its segment. What free records hold is open, so a free one may keep the number of the next one here.
    pub segment: u64,
    pub meta: Head,
    pub metrics: Head,
    pub trace: TraceId,
    pub parent: u64,
    pub start: i64,
    pub duration: i64,
    pub error: i32,
    pub service: T,
    pub name: T,
    pub resource: T,
    // The span's type.
    pub kind: T,
}
