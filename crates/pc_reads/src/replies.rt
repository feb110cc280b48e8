ghost use Rattle.std.specs.Prelude.{◌≡◌, None, find, is_some};
ghost use Rattle.std.specs.Option.{option_copied, option_map};
ghost use Rattle.pc_reads.specs.Replies.{first_unrefreshed, shows_unrefreshed, unrefreshed_by, unrefreshed_in};
ghost use Rattle.pc_world.specs.Answering.{IsRefreshReply};
ghost use Rattle.pc_proto.specs.declared.reply.Reply.TheVariants as replies;

use pc_base::{Key, Timestamp};
use pc_proto::Reply;
use pc_wave::{Message, Progress, Wave};

/// The write that a refresh met, where this is a reply to one that did not hold.
pub fn unrefreshed(reply: &Reply) -> Option<(&Key, Timestamp)>
    ensures met { option_map (λ write. (write.0.now, write.1)) result ≡ unrefreshed_by reply.now }
    ensures held { result ≡ None → IsRefreshReply reply.now → reply.now ≡ replies.Refreshed }
{
    match reply {
        Reply::Unrefreshed { key, ts } => Some((key, *ts)),
        _ => None,
    }
}

/// The write that the first refresh met of those that did not hold, in the order of the wave.
pub fn first_unrefreshed(wave: &Wave) -> Option<(&Key, Timestamp)>
    ensures { option_map (λ write. (write.0.now, write.1)) result ≡ first_unrefreshed wave.now }
{
    match first_met(wave.messages()) {
        Some(message) => met(message),
        None => None,
    }
}

fn first_met(messages: &[Message]) -> Option<&Message>
    ensures { option_copied result ≡ find shows_unrefreshed messages.now }
{
    messages.iter().find(|message| is_met(message))
}

fn is_met(message: &Message) -> bool
    ensures { result ≡ shows_unrefreshed message.now }
{
    met(message).is_some()
}

fn met(message: &Message) -> Option<(&Key, Timestamp)>
    ensures { option_map (λ write. (write.0.now, write.1)) result ≡ unrefreshed_in message.now.progress }
{
    match &message.progress {
        Progress::Answered { reply, .. } => unrefreshed(reply),
        _ => None,
    }
}
