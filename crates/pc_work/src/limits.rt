//! The limits of a workload's numbers that nothing else has.

/// The most often that a workload lets a request be sent in all.
pub const MOST_TRIES: u32 = 16;

/// The greatest period of a wire, and the most sends for which a message is held or repeated.
pub const MOST_SENDS: u32 = 1_000_000;
