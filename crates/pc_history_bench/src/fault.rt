use pc_base::NoMemory;
use std::io;

/// Why a run gave no figures.
#[derive(Debug, Drop)]
pub enum Fault {
    NoMemory,
    Runtime(io::Error),
}

impl From<NoMemory> for Fault {
    fn from(_error: NoMemory) -> Fault {
        Fault::NoMemory
    }
}

impl From<io::Error> for Fault {
    fn from(error: io::Error) -> Fault {
        Fault::Runtime(error)
    }
}
