ghost use Rattle.std.specs.Prelude.{◌≡◌, option_map, bytes_eq};
ghost use Rattle.pc_spelling.specs.Cutting.{cut, cut_last, word_of};

use memchr::{memchr, memrchr};

/// What stands before the first such byte, and what behind it.
pub fn cut(byte: u8, bytes: &[u8]) -> Option<(&[u8], &[u8])>
    ensures { option_map (λ p. (p.0.now, p.1.now)) result ≡ cut byte bytes.now }
{
    match memchr(byte, bytes) {
        Some(at) => Some((&bytes[..at], &bytes[at + 1..])),
        None => None,
    }
}

/// What stands before the last such byte, and what behind it.
pub fn cut_last(byte: u8, bytes: &[u8]) -> Option<(&[u8], &[u8])>
    ensures { option_map (λ p. (p.0.now, p.1.now)) result ≡ cut_last byte bytes.now }
{
    match memrchr(byte, bytes) {
        Some(at) => Some((&bytes[..at], &bytes[at + 1..])),
        None => None,
    }
}

/// A text's first word, and what stands behind the byte that ends it, where it is there.
pub fn word_of(byte: u8, bytes: &[u8]) -> (&[u8], Option<&[u8]>)
    ensures { (result.0.now, option_map (λ rest. rest.now) result.1) ≡ word_of byte bytes.now }
{
    match cut(byte, bytes) {
        Some((word, rest)) => (word, Some(rest)),
        None => (bytes, None),
    }
}

/// Whether the bytes are this word.
pub fn is(bytes: &[u8], word: &[u8]) -> bool
    ensures { result ≡ bytes_eq bytes.now word.now }
{
    bytes == word
}
