//! What the root and each seat know of the table. No value of these types is made.
use std::collections::LinkedList;

pub enum Role {
    /// A seat that was joined.
    Spent,
    Root,
    /// A seat that waits for nothing.
    Away,
    /// A seat with this ticket. Tickets have no upper bound; the words carry them modulo 2^64.
    Waiting(u64),
    /// A seat with this ticket, at its turn.
    Serving(u64),
}

/// `number` and `mine` are a seat's. The root has how many seats it made, the seats that were joined with what
/// each made, and the two logs that it put together last.
pub struct View<E> {
    pub role: Role,
    pub number: u64,
    pub seen: LinkedList<E>,
    pub mine: LinkedList<E>,
    pub made: u64,
    pub joined: LinkedList<(u64, LinkedList<E>)>,
    pub ours: LinkedList<E>,
    pub theirs: LinkedList<E>,
}
