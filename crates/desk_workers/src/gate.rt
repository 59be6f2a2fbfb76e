/// Told of each request of a client. A client's requests are counted from 0.
pub trait Gate {
    /// The request is put when this call returns.
    fn pass(&self, client: u32, request: u32);

    /// The request was answered, or refused for want of memory.
    fn answered(&self, client: u32, request: u32);
}
