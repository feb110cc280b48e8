ghost use Rattle.pc_implicit.specs.Reads.{ReadsStand, RefreshesStand};
ghost use Rattle.pc_implicit.specs.Versions.{VersionsRise};

/// A law: after a read no write of another transaction comes at or below its timestamp in its span.
pub fn reads_stand()
    ensures { ReadsStand }
{}

/// A law: after a refresh that held no write of another transaction comes between its timestamps in its span.
pub fn refreshes_stand()
    ensures { RefreshesStand }
{}

/// A law: in a range at most one intent stands at a key, above the key's versions, and these rise.
pub fn versions_rise()
    ensures { VersionsRise }
{}
