use pc_base::Key;
use pc_proto::View;

/// How far a recovery has come.
#[derive(Drop)]
pub enum Progress {
    /// So many of the writes were found, from the first on.
    Found(usize),
    /// A write of this key was missing.
    Missing(Key),
    /// The recovery was answered with this view.
    Over(View),
}
