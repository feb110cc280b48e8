ghost use Rattle.std.specs.Prelude.{◌≡◌, ◌↔◌, IsTrue, Some};
ghost use Rattle.std.specs.Option.{option_copied};

use pc_proto::Call;

/// Whether the call is a commit.
pub fn asks_commit(call: Option<&Call>) -> bool
    ensures { IsTrue result ↔ (option_copied call.entry ≡ Some Call.Commit) }
{
    matches!(call, Some(Call::Commit))
}

/// Whether the call is a rollback.
pub fn asks_rollback(call: Option<&Call>) -> bool
    ensures { IsTrue result ↔ (option_copied call.entry ≡ Some Call.Rollback) }
{
    matches!(call, Some(Call::Rollback))
}

/// Whether the call is a recoverer's round.
pub fn asks_round(call: Option<&Call>) -> bool
    ensures { IsTrue result ↔ (option_copied call.entry ≡ Some Call.Round) }
{
    matches!(call, Some(Call::Round))
}
