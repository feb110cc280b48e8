//! General facts of lists, searches, counts and keyed lists, each once, for the proofs of every other crate. It has no code.
#![tactic(auto)]
