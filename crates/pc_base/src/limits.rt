//! Every limit and default of the protocol and of its programs. Contracts, definitions and documents cite these names.

/// The most bytes that a key has.
pub const KEY_BYTES: usize = 64;

/// The most bytes that a value has.
pub const VALUE_BYTES: usize = 1024;

/// How many intents one request meets in a call before its holder blocks the call.
pub const MOST_CONFLICTS: u32 = 8;

/// How many times a commit is told in a call that its record was moved before the call gives up.
pub const MOST_REFUSALS: u32 = 8;

/// The most writes of a transaction that are in flight at once.
pub const MOST_IN_FLIGHT: usize = 64;

/// The greatest reading of a clock, in nanoseconds, at which a transaction begins.
pub const GREATEST_READING: u64 = 4_611_686_018_427_387_904;

/// After how many nanoseconds of silence a session shows that its transaction is alive.
pub const HEARTBEAT: u64 = 1_000_000_000;

/// After how many nanoseconds of silence a transaction counts as dead.
pub const EXPIRY: u64 = 5_000_000_000;

/// The most entries of one actor, where the workload doesn't say.
pub const DEFAULT_ENTRIES: u64 = 1_000_000;

/// The least number of entries that a workload sets as its limit.
pub const LEAST_ENTRIES: u64 = 64;

/// The greatest number of entries that a workload sets as its limit.
pub const MOST_ENTRIES: u64 = 4_294_967_295;

/// How often a message is sent in all before its range counts as unavailable, where the workload doesn't say.
pub const DEFAULT_TRIES: u32 = 4;

/// How often a transaction is run again, where the workload doesn't say.
pub const DEFAULT_RERUNS: u32 = 8;

/// The most often that a workload lets a transaction run again.
pub const MOST_RERUNS: u32 = 64;

/// The most keys at which a workload cuts the ranges.
pub const MOST_SPLITS: usize = 15;

/// The most sessions of a workload.
pub const MOST_SESSIONS: usize = 64;

/// The most statements of a workload, each begin, each end and each learn counted, and an add as two.
pub const MOST_STATEMENTS: u64 = 100_000;

/// The most recoverers of a workload.
pub const MOST_RECOVERERS: usize = 8;

/// The most rounds of a recoverer.
pub const MOST_ROUNDS: u32 = 1000;

/// How many rounds a recoverer makes, where the workload doesn't say.
pub const DEFAULT_ROUNDS: u32 = 1;

/// The most turns of a workload.
pub const MOST_TURNS: usize = 1_000_000;

/// The most bytes of a workload's text.
pub const INPUT_BYTES: usize = 16_777_216;
