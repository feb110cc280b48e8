use pc_proto::{Fate, View};

/// How far a conflict round has come.
#[derive(Drop)]
pub enum Progress {
    /// The holder is to be pushed.
    Push,
    /// The push was refused.
    Refused,
    /// The push met this staging record, which a recovery has to decide.
    Unsure(View),
    /// The intent is to be settled with this fate.
    Resolve(Fate),
    Over,
}
