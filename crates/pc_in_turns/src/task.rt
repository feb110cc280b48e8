/// What a session does when it moves.
#[derive(Clone, Copy, Debug, PartialEq, Eq)]
pub(crate) enum Task {
    /// It goes on by itself until so many items of its script are over.
    Open(usize),
    /// It asks its script's next call.
    Call,
    /// It does its oldest job.
    Job,
    /// It goes on by itself to the end of its script.
    Rest,
}
