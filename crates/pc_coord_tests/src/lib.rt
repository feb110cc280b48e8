//! Tests of the coordinator alone, which would prove all that is below it a second time.
#![tactic(auto)]

#[cfg(test)]
mod lost;
