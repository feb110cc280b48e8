ghost use Rattle.pc_txn.specs.Laws.{TxnStandsOn};

/// A law: the open transaction stands on beside whatever else its session sends and hears.
pub fn txn_stands_on()
    ensures { TxnStandsOn }
{}
