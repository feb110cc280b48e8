ghost use Rattle.std.specs.Prelude.{◌↔◌, IsTrue};
ghost use Rattle.pc_world.specs.Local.{Head, IsActorOf};

use pc_base::ActorId;
use pc_proto::Keys;

/// Whether the head of these splits and counts has the actor.
pub fn has_actor(splits: &Keys, sessions: u32, recoverers: u32, actor: ActorId) -> bool
    ensures { IsTrue result ↔ IsActorOf (record { splits = splits.now; sessions = sessions; recoverers = recoverers }) actor }
{
    match actor {
        ActorId::Range(range) => range as usize <= splits.len(),
        ActorId::Session(number) => 1 <= number && number <= sessions,
        ActorId::Recoverer(number) => 1 <= number && number <= recoverers,
    }
}
