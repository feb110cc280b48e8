/// Who makes an entry of the journal.
#[derive(Clone, Copy, Debug, PartialEq, Eq, PartialOrd, Ord)]
pub enum ActorId {
    /// A range, from 0 in key order.
    Range(u32),
    /// A session, from 1.
    Session(u32),
    /// A recoverer, from 1.
    Recoverer(u32),
}
