use pc_allow::Allow;
use pc_base::NoMemory;
use pc_checking::Checker;
use pc_judge::Actors;
use pc_verdict::{Journal, Unread, Verdict};
use std::alloc::Global;

/// Finds the verdict on a journal with its report.
///
/// It has no memory for a journal of 2^32 ranges, of which no text is as long as that.
#[derive(Clone, Copy, Debug, PartialEq, Eq)]
pub struct JournalChecker;

impl Checker for JournalChecker {
    fn verdict(&self, alloc: Global, bytes: &[u8]) -> Result<Verdict, NoMemory> {
        let journal = match Journal::read(alloc, bytes) {
            Ok(journal) => journal,
            Err(Unread::Malformed { line }) => return Ok(Verdict::Malformed { line }),
            Err(Unread::NoMemory) => return Err(NoMemory),
        };
        if journal.splits.len() as u64 >= (1 << 32) - 1 {
            return Err(NoMemory);
        }
        let mut actors = Actors::<Allow>::new(
            alloc,
            &journal.splits,
            journal.sessions,
            journal.recoverers,
        )?;
        journal.verdict(&mut actors, alloc)
    }
}
