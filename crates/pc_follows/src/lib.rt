//! What a session's own list keeps beyond the protocol where it follows its workload. It has no code.
#![tactic(auto)]
