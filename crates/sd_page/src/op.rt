//! What an operation sets: the value of one slot.

/// Sets the value of a slot, or makes a slot at the end of the page. The value is lent by who owns it.
#[derive(Clone, Copy)]
pub struct Op<'a> {
    /// The slot; where it is the count of slots, a new slot of `capacity` bytes is made.
    pub slot: u16,
    /// The capacity of a new slot, in bytes. The capacity of a slot that the page has stays.
    pub capacity: u16,
    /// The value after it; `None` leaves the slot dead.
    pub after: Option<&'a [u8]>,
}
