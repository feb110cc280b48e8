ghost use Rattle.std.specs.Prelude.{◌≡◌};
ghost use Rattle.pc_check.specs.Rules.{rule_of};

use pc_proto::Event;

/// What an entry of a journal breaks, or the lines of its report.
#[derive(Clone, Copy, Debug, PartialEq, Eq)]
pub enum Rule {
    /// The entry's step is not the count of entries before it.
    Step,
    /// The head has no such actor.
    Actor,
    Ask,
    Send,
    Eval,
    Hear,
    Tell,
    Meet,
    Report,
}

/// The rule of an event of this kind.
pub fn rule_of(event: &Event) -> Rule
    ensures { result ≡ rule_of event.now }
{
    match event {
        Event::Ask { .. } => Rule::Ask,
        Event::Send { .. } => Rule::Send,
        Event::Eval { .. } => Rule::Eval,
        Event::Hear { .. } => Rule::Hear,
        Event::Tell(_) => Rule::Tell,
        Event::Meet { .. } => Rule::Meet,
    }
}
