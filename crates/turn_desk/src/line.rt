/// A turn of the line: served, with its ask and its answer, or blank, which ended in want of memory. No value of it is made.
pub enum Entry<A, B> {
    Served(A, B),
    Blank,
}

/// A turn of the line as a pass notes it: its own, or another's. No value of it is made.
pub struct Noted<A, B> {
    pub mine: bool,
    pub entry: Entry<A, B>,
}
