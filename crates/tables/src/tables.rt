// The tables that a caller lends to a call.
ghost use Rattle.std.specs.Prelude.{◌≡◌};

use crate::span::Span;

pub const MOST_STRINGS: usize = 65536;

// How many pairs the table of default pairs has.
pub const MOST_DEFAULTS: usize = 32;

// All tables but the segments. By a rule of the project no struct holds a lent table together with floats, or with a
// text or an index by value, so segments, settings and both indexes are lent beside it, each as its own parameter.
// By a rule of the project the rows of a record are lent memory of a fixed width, so they lie beside it and not in it.
// Who is lent these has clauses on the memory that lies behind them: without, nothing is known of it once the struct is gone.
#[derive(Drop)]
pub struct Tables<'a, T> {
    pub spans: &'a mut [Span<T>],
    // 99 text pairs and 54 number pairs for each span record.
    pub span_meta: &'a mut [(T, T)],
    pub span_metrics: &'a mut [(T, u64)],
    // 32 text pairs and 16 number pairs for each segment record.
    pub segment_meta: &'a mut [(T, T)],
    pub segment_metrics: &'a mut [(T, u64)],
    pub strings: &'a mut [Option<T>],
    // 32 default pairs.
    pub defaults: &'a mut [(T, T)],
}

impl<'a, T> Tables<'a, T> {
    // The span records, to be read.
    pub fn spans(&self) -> &[Span<T>]
        ensures { result.now ≡ self.now.spans.now }
    {
        self.spans
    }

    // The strings, to be read.
    pub fn strings(&self) -> &[Option<T>]
        ensures { result.now ≡ self.now.strings.now }
    {
        self.strings
    }
}
