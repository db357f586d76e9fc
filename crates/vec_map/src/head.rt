// What is kept of a row beside its pairs.

// How many pairs of a row count, and the mark that no key stands in it twice.
#[derive(Clone, Copy, Debug, PartialEq, Eq, Default)]
pub struct Head {
    pub count: usize,
    // The mark of a row is a rule of this project.
    pub deduped: bool,
}
