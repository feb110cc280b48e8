//! A session's script: which call comes next, and what each entry of the session's own list keeps of its work.
#![tactic(auto)]

mod planned;
mod script;
mod sum;

pub use planned::Planned;
pub use script::ScriptRun;
