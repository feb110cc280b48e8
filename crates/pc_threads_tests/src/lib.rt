//! Tests of runs: what no contract sees of those on threads, which come in another order each time; and the worked rows, in turns.
#![tactic(auto)]

#[cfg(test)]
mod drawn;
#[cfg(test)]
mod many;
#[cfg(test)]
mod meeting;
#[cfg(test)]
mod outputs;
#[cfg(test)]
mod rows;
