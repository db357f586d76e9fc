// Segment records.
use vec_map::head::Head;

// The three sampling decisions, each a float or none.
#[derive(Clone, Copy)]
pub struct Decisions {
    pub rule: Option<f64>,
    pub limit: Option<f64>,
    pub agent: Option<f64>,
}

// How many text pairs and number pairs the rows of a segment take. Operations may fill them.
pub const TEXT_ROW: usize = 32;

pub const NUMBER_ROW: usize = 16;

// A segment: one visit of a trace to the service. It stands while its count is above 0.
#[derive(Drop)]
pub struct Segment<T> {
    pub id: u64,
    // The creations that name it, less the spans charged to it; by a rule of the project 0 means that none stands.
    pub count: u32,
    pub meta: Head,
    pub metrics: Head,
    pub origin: Option<T>,
    // The sampling decisions: by a rule of the project the record holds the three optional floats itself.
    pub rule: Option<f64>,
    pub limit: Option<f64>,
    pub agent: Option<f64>,
}
