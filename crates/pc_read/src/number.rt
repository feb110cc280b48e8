ghost use Rattle.std.specs.Prelude.{◌≡◌, ◌^◌, ◌≤◌, ◌<◌, true, nat_lt, if◌then◌else◌, Some, None, IfSome};
ghost use Rattle.std.specs.List.{list_all};
ghost use Rattle.std.specs.Str.Parse.{digits_value};
ghost use Rattle.pc_spelling.specs.Bytes.{is_digit};
ghost use Rattle.pc_spelling.specs.Reading.{is_numeral, number_at, number32_at, number64_at, origin_at, ts_at};

use crate::cut::{cut, is};
use pc_base::Timestamp;
use pc_proto::Origin;

fn is_digit(byte: u8) -> bool
    ensures { result ≡ is_digit byte }
{
    byte.is_ascii_digit()
}

fn are_digits(bytes: &[u8]) -> bool
    ensures { result ≡ list_all is_digit bytes.now }
{
    bytes.iter().all(|byte| is_digit(*byte))
}

/// Digits, at least one, and no zero before others.
fn is_numeral(bytes: &[u8]) -> bool
    ensures { result ≡ is_numeral bytes.now }
{
    match bytes {
        [] => false,
        [digit] => is_digit(*digit),
        [first, ..] => *first != b'0' && are_digits(bytes),
    }
}

/// The number that the digits write, where it is below the limit.
fn digits_below(limit: u128, digits: &[u8]) -> Option<u128>
    requires limit { (0 < limit) × (limit ≤ 2 ^ 64) }
    requires digits { list_all is_digit digits.now ≡ true }
    ensures { result ≡ (if nat_lt (digits_value 10 digits.now) limit then Some (digits_value 10 digits.now) else None) }
{
    let mut value = 0u128;
    for digit in digits {
        value = value * 10 + u128::from(*digit - b'0');
        if value >= limit {
            return None;
        }
    }
    Some(value)
}

#[tactic(auto, unfolding(pc_spelling::specs::Reading::number_at))]
fn below(limit: u128, bytes: &[u8]) -> Option<u128>
    requires { (0 < limit) × (limit ≤ 2 ^ 64) }
    ensures value { result ≡ number_at limit bytes.now }
    ensures below { IfSome result (λ number. number < limit) }
{
    if is_numeral(bytes) {
        digits_below(limit, bytes)
    } else {
        None
    }
}

/// A number of 64 bits.
pub fn number64(bytes: &[u8]) -> Option<u64>
    ensures { result ≡ number64_at bytes.now }
{
    match below(1 << 64, bytes) {
        Some(number) => Some(number as u64),
        None => None,
    }
}

/// A number of 32 bits.
pub fn number32(bytes: &[u8]) -> Option<u32>
    ensures { result ≡ number32_at bytes.now }
{
    match below(1 << 32, bytes) {
        Some(number) => Some(number as u32),
        None => None,
    }
}

/// A wall part and a logical part.
#[tactic(auto, unfolding(pc_spelling::specs::Reading::ts_at))]
pub fn timestamp(bytes: &[u8]) -> Option<Timestamp>
    ensures { result ≡ ts_at bytes.now }
{
    let (wall, logical) = cut(b'.', bytes)?;
    let wall = number64(wall)?;
    let logical = number32(logical)?;
    Some(Timestamp::new(wall, logical))
}

/// Where a value comes from.
#[tactic(auto, unfolding(pc_spelling::specs::Reading::origin_at))]
pub fn origin(bytes: &[u8]) -> Option<Origin>
    ensures { result ≡ origin_at bytes.now }
{
    if is(bytes, b"-") {
        Some(Origin::Nothing)
    } else if is(bytes, b"own") {
        Some(Origin::Own)
    } else {
        Some(Origin::At(timestamp(bytes)?))
    }
}
