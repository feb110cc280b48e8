//! The one answer of a source or a sink that did not do what was asked.

/// A call of a source or a sink that came to nothing.
#[derive(Clone, Copy, Debug, PartialEq, Eq)]
pub struct Failed;
