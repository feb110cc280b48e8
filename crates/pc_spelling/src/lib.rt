//! Laws of the text of a journal: what is printed is read again, what is read is spelled so, and one text spells one head and
//! one history.
#![tactic(auto)]

ghost use Rattle.pc_spelling.specs.OneToOne.{EntriesAreReadAgain, EntriesAreSpelled, IsOneToOne};
ghost use Rattle.pc_spelling.specs.RunsTellBare.{RunsTellBare};

/// A law: what is printed of an entry is read as that entry.
pub fn entries_are_read_again()
    ensures { EntriesAreReadAgain }
{}

/// A law: where a line is read as an entry, the line is what is printed of it.
pub fn entries_are_spelled()
    ensures { EntriesAreSpelled }
{}

/// A law: one text is the journal of one head and one history, whatever stands below it.
pub fn journal_is_one_to_one()
    ensures { IsOneToOne }
{}

/// A law: a run tells no row with its origin, so its text loses nothing.
pub fn runs_tell_bare()
    ensures { RunsTellBare }
{}
