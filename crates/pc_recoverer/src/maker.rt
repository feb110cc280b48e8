use pc_base::Priority;

/// Who makes a round: the recoverer of this number, which pushes at this level, in a round that was asked at this reading.
#[derive(Clone, Copy, Debug)]
pub struct RoundMaker {
    pub number: u32,
    pub level: Priority,
    /// In nanoseconds.
    pub reading: u64,
}
