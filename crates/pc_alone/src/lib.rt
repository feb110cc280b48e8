//! A workload of one session that states no recoverers and no turns: whoever follows it is alone, so that the law of one session alone speaks of it.
#![tactic(auto)]

ghost use Rattle.pc_alone.specs.Laws.{OneSessionIsAlone};

/// A law: one session that follows its workload, in turns or on threads, is alone.
pub fn one_session_is_alone()
    ensures { OneSessionIsAlone }
{}
