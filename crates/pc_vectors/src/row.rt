/// A workload, and what its run writes.
#[derive(Clone, Copy, Debug)]
pub struct Row {
    pub name: &'static str,
    /// The workload, as it is read.
    pub input: &'static [u8],
    /// All bytes of the output.
    pub output: &'static [u8],
}
