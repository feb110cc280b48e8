use pc_history::World;

/// A world in which anybody may make any number at any time.
#[derive(Drop)]
pub struct Free;

impl World for Free {
    ghost use Rattle.std.specs.Prelude.{false, cond};
    ghost use Rattle.std.proofs.Common.{inl, refl, subst};

    type Event = u64;

    ghost sense = { λ world. record { names = (λ event entry. false); local = (λ id own event named. Unit {0}); caused = (λ before event id. Unit {0}); spends = (λ event. false); kept = (λ step event. Unit {0}) } };

    ghost laws = { λ world. record {
      names = (λ entries event id caused. inl (λ a. refl));
      names_one = (λ history event fine a b in_a in_b names_a names_b. absurd (subst (λ t. cond t ⊥ (Unit {0})) names_a tt));
      more = (λ some all event id has caused. tt);
      keeps = (λ history event id fine kept local caused. tt);
    } };
}
