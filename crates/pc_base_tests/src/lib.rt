//! Tests of low crates, which would prove these a second time: faults in mid-stream, and reads among many versions.
#![tactic(auto)]

#[cfg(test)]
mod streams;
#[cfg(test)]
mod versions;
