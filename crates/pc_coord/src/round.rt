/// How the round of a conflict ended.
#[derive(Clone, Copy, Debug)]
pub enum Round {
    /// The holder was pushed and its intent was settled: the request is sent again.
    Again,
    /// The push of the holder was refused.
    Refused,
    /// Every send of one of the round's requests was lost, so many in all.
    Lost { faults: u32 },
}
