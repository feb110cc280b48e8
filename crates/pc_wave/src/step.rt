use pc_base::TxnId;
use pc_proto::{Reply, Request};

/// What is due of a wave.
#[derive(Debug, PartialEq, Eq, Drop)]
pub enum Step {
    /// This request is to be sent.
    Send(Request),
    /// The messages that were sent are to be delivered.
    Deliver,
    /// The message of this number met this conflict, for which a round is to be made.
    Round { number: u64, conflict: Reply },
    /// This transaction's intents blocked a message as often as one may be blocked.
    Blocked { holder: TxnId },
    /// Every message was answered.
    Answered,
}

/// How far a wave is.
#[derive(Debug, PartialEq, Eq, Drop)]
pub enum WaveState {
    /// More is due of it: a request is to be sent, messages are to be delivered, or a round is to be made.
    UnderWay,
    /// This transaction's intents blocked a message as often as one may be blocked.
    Blocked { holder: TxnId },
    /// Every message was answered.
    Answered,
}
