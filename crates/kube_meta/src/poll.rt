//! What a poll gives.

/// The answer of a call that may have to be made again later (`std::task::Poll`).
#[derive(Debug, Drop)]
pub enum Polled<T> {
    /// The call is over, and this is its value.
    Ready(T),
    /// Nothing came yet.
    NotReady,
}

/// The answer of a poll of a stream that may be cut short (`Stream::poll_next`, with a bound on the work of one call).
#[derive(Debug, Drop)]
pub enum Next<T> {
    /// The next item.
    Item(T),
    /// Nothing came yet.
    NotReady,
    /// The work that one call may do was done before an item came.
    Spent,
    /// There are no more items.
    End,
}
