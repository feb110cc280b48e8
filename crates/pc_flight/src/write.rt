use pc_base::{Key, Value};

/// A write that was sent and is not proved; no value is a deletion.
#[derive(Debug, Drop)]
pub struct WriteInFlight {
    pub key: Key,
    pub seq: u32,
    pub value: Option<Value>,
}
