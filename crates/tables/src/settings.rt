// What set-up is told, and what else is kept beside the tables.

#[derive(Drop)]
pub struct Settings<T> {
    pub service: T,
    pub language: T,
    pub pid: u32,
    // How many of the default pairs count: their table is lent memory of a fixed length.
    pub defaults: usize,
    // Where to look first for a free record: a hint, which is tested when it is used. A number and no list of free records,
    // since there is no heap.
    pub next_free: usize,
}
