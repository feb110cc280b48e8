ghost use Rattle.std.specs.Prelude.{◌≡◌, ◌==◌, ◌+◌, ◌&&◌, IfOk, IsSome, None, Some, is_some, option_map};
ghost use Rattle.std.specs.List.{slice_split};
ghost use Rattle.pc_read.specs.Given.{StandsFor};
ghost use Rattle.pc_read.specs.Rising.{is_above, rising};
ghost use Rattle.pc_read.specs.Texts.{own_splits, splits_in};
ghost use Rattle.pc_spelling.specs.Reading.{key_at};
ghost use Rattle.pc_spelling.specs.ReadingHead.{actors_at, ranges_at, splits_at};

use crate::cut::{cut, is, word_of};
use crate::list::{KeyItem, owned_items};
use crate::number::number32;
use crate::text::key;
use pc_base::{Items, Key, NoMemory};
use pc_proto::Keys;
use std::alloc::Global;

/// The counts of the third line.
#[tactic(auto, unfolding(pc_spelling::specs::ReadingHead::actors_at))]
pub fn actors(line: &[u8]) -> Option<(u32, u32)>
    ensures { result ≡ actors_at line.now }
{
    match word_of(b' ', line) {
        (word, Some(rest)) if is(word, b"actors") => {
            let (sessions, recoverers) = cut(b' ', rest)?;
            let sessions = number32(sessions)?;
            let recoverers = number32(recoverers)?;
            Some((sessions, recoverers))
        }
        _ => None,
    }
}

/// The number of ranges and the split keys of the second line, as they stand.
#[tactic(auto, unfolding(pc_spelling::specs::ReadingHead::ranges_at))]
pub fn ranges(line: &[u8]) -> Option<&[u8]>
    ensures { StandsFor own_splits result (ranges_at line.now) }
{
    match word_of(b' ', line) {
        (word, Some(rest)) if is(word, b"ranges") && are_splits(rest) => Some(rest),
        _ => None,
    }
}

/// Whether the bytes are a number of ranges and one split key less, each above the one before.
#[tactic(auto, using(crate::proofs::SplitKeys::split_rules))]
fn are_splits(bytes: &[u8]) -> bool
    ensures { result ≡ is_some (splits_at (slice_split (λ b. b == 32) bytes.now)) }
{
    let Some((count, keys)) = cut(b' ', bytes) else {
        return number32(bytes) == Some(1);
    };
    let Some(count) = number32(count) else {
        return false;
    };
    match rising(keys) {
        Some(found) => is_one_more(count, found),
        None => false,
    }
}

fn is_one_more(count: u32, found: u64) -> bool
    ensures { result ≡ (count == found + 1) }
{
    count > 0 && u64::from(count) - 1 == found
}

/// Whether the text is a key above the one before.
fn is_next(before: Option<&[u8]>, text: &[u8]) -> bool
    ensures { result ≡ (is_some (key_at text.now) && is_above (option_map (λ last. last.now) before.entry) text.now) }
{
    match before {
        Some(last) => key(text).is_some() && last.cmp(&text).is_lt(),
        None => key(text).is_some(),
    }
}

/// The number of keys that the bytes are, one space apart, each above the one before.
#[tactic(auto, using(crate::proofs::SplitKeys::rising_parts))]
fn rising(bytes: &[u8]) -> Option<u64>
    ensures { result ≡ rising None (slice_split (λ b. b == 32) bytes.now) }
{
    let mut rest = bytes;
    let mut before: Option<&[u8]> = None;
    let mut found = 0;
    'keys: loop {
        match cut(b' ', rest) {
            None => {
                return if is_next(before, rest) {
                    Some(found + 1)
                } else {
                    None
                };
            }
            Some((text, behind)) => {
                if !is_next(before, text) {
                    return None;
                }
                found += 1;
                before = Some(text);
                rest = behind;
            }
        }
    }
}

/// The split keys behind the number of ranges, in memory of their own.
pub fn owned_splits(alloc: Global, bytes: &[u8]) -> Result<Keys, NoMemory>
    requires { IsSome (splits_in bytes.now) }
    ensures { IfOk result (λ keys. splits_in bytes.now ≡ Some keys) }
{
    match cut(b' ', bytes) {
        None => Ok(Items::new(alloc)),
        Some((_, keys)) => owned_items::<Key, KeyItem>(alloc, b' ', keys),
    }
}
