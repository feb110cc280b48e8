ghost use Rattle.pc_implicit.specs.Writes.{OwnIntentsStand, ProofsWereWritten, VersionsAreCommitted, WritesOfCommitted};

/// A law: what a transaction wrote in its epoch stands in its intents while it is not decided.
pub fn own_intents_stand()
    ensures { OwnIntentsStand }
{}

/// A law: each proof that a session has of a write is an answer to a put of it, or to a query that found it.
pub fn proofs_were_written()
    ensures { ProofsWereWritten }
{}

/// A law: what a committed transaction wrote stands, as its version or in its intent.
pub fn writes_of_committed()
    ensures { WritesOfCommitted }
{}

/// A law: each version is of a committed transaction.
pub fn versions_are_committed()
    ensures { VersionsAreCommitted }
{}
