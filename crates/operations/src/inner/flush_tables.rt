// The tables that the operations of a flush are lent.
ghost use Rattle.std.specs.Prelude.{◌≡◌};

use tables::span::Span;

// The tables of a call as its operations see them: they write five of them, and only read strings and default pairs.
// Segments, settings and both indexes are lent beside it, each as its own parameter, as they are beside `Tables`.
// Who is lent these has clauses on the memory that lies behind them: without, nothing is known of it once the struct is gone.
#[derive(Drop)]
pub struct FlushTables<'a, T> {
    pub spans: &'a mut [Span<T>],
    pub span_meta: &'a mut [(T, T)],
    pub span_metrics: &'a mut [(T, u64)],
    pub segment_meta: &'a mut [(T, T)],
    pub segment_metrics: &'a mut [(T, u64)],
    pub strings: &'a [Option<T>],
    pub defaults: &'a [(T, T)],
}

impl<'a, T> FlushTables<'a, T> {
    // The span records, to be read. (The check of borrows does not yet cover records with texts that lie in a field of a
    // `&mut FlushTables` and are lent by `&`.)
    pub fn spans(&self) -> &[Span<T>]
        ensures { result.now ≡ self.now.spans.now }
    {
        self.spans
    }
}
