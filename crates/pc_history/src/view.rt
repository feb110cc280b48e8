//! What the seats of the table know. Contracts and the rule speak of these; no value of them is made.
use crate::pair::Pair;
use pc_base::{ActorId, Entry};
use std::collections::LinkedList;

/// What a seat is for.
pub enum Role {
    Opening,
    Acting,
    Noting,
    Spent,
}

/// An entry that was told by a note: its place in its actor's list, and how often it may still be spent.
pub struct Known<E> {
    pub entry: Entry<E>,
    pub place: u64,
    pub uses: u64,
}

/// What one actor stored and knows: its own entries, each with the entry that it names, the uses that it gave for each of
/// them, by place, and what notes told it.
pub struct Part<E> {
    pub id: ActorId,
    pub own: LinkedList<Pair<E>>,
    pub given: LinkedList<u64>,
    pub known: LinkedList<Known<E>>,
}

/// What a seat knows. A note's part has the entry that it tells as the one known; the opener's has nothing.
pub struct View<W, E> {
    pub role: Role,
    pub world: Option<W>,
    pub part: Part<E>,
    pub seated: LinkedList<ActorId>,
    pub parts: LinkedList<Part<E>>,
}
