use pc_base::Entry;

/// An entry with the entry that it names, if it names one. Contracts speak of it, and no value of it is made.
pub struct Pair<E> {
    pub entry: Entry<E>,
    pub named: Option<Entry<E>>,
}
