/// What is asked before a range evaluates a request. It can hold the evaluation up, and changes nothing else.
pub trait Gate {
    fn before(&self, range: u32);
}

/// The gate that does nothing.
#[derive(Clone, Copy, Debug, PartialEq, Eq)]
pub struct NoGate;

impl Gate for NoGate {
    fn before(&self, _range: u32) {}
}
