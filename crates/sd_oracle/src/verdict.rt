//! What the plain program says of an event with its reply.

/// Whether a reply is the serial table's.
#[derive(Clone, Copy, PartialEq, Eq)]
pub enum Verdict {
    /// It follows, and the state has moved on.
    Follows,
    /// It can't follow; the state is as before.
    Differs,
    /// The count of joins that failed has no room for it; the state is as before.
    Unjudged,
}
