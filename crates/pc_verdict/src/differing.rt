ghost use Rattle.std.specs.Prelude.{◌≡◌, ℕ, ◌≤◌, IfSome, List, MatchOption, length, map};
ghost use Rattle.pc_verdict.specs.Differing.{IsFirstDifference, IsMadeOf};

use pc_read::cut_first;

/// The place of the first line that is not as in the text, which is made of lines.
pub fn first_difference(lines: &[&[u8]], text: &[u8]) -> Option<usize>
    ensures place { (wanted : List (List ℕ)) → IsMadeOf wanted text.now → MatchOption result (map (λ line. line.now) lines.now ≡ wanted) (IsFirstDifference (map (λ line. line.now) lines.now) wanted) }
    ensures within { IfSome result (λ place. place ≤ length lines.now) }
{
    let mut rest = text;
    for (place, line) in lines.iter().enumerate() {
        match cut_first(b'\n', rest) {
            Some((wanted, behind)) if wanted == *line => rest = behind,
            _ => return Some(place),
        }
    }
    if rest.is_empty() {
        None
    } else {
        Some(lines.len())
    }
}
