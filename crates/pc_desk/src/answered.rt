use pc_proto::Reply;

/// The reply to the message of a number, evaluated at a step and not heard yet.
#[derive(Debug, Drop)]
pub struct Answered {
    pub number: u64,
    pub step: u64,
    pub reply: Reply,
}
