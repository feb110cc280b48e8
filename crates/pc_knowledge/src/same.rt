ghost use Rattle.std.specs.Prelude.{◌≡◌, ◌↔◌, IsTrue};
ghost use Rattle.std.specs.Option.{option_copied};

use pc_base::{Key, Value, Who};
use pc_known::is_key;
use pc_proto::{Fate, Finding, Why};

/// Whether the two values are the same; no value is a deletion.
pub fn same_value(one: Option<&Value>, other: Option<&Value>) -> bool
    ensures { IsTrue result ↔ (option_copied one.entry ≡ option_copied other.entry) }
{
    match (one, other) {
        (None, None) => true,
        (Some(value), Some(other)) => is_value(value, other),
        _ => false,
    }
}

fn is_value(one: &Value, other: &Value) -> bool
    ensures { IsTrue result ↔ (one.now ≡ other.now) }
{
    *one == *other
}

/// Whether the two name the same one who pushes, queries or aborts.
pub fn same_who(one: Who, other: Who) -> bool
    ensures { IsTrue result ↔ (one ≡ other) }
{
    one == other
}

/// Whether the two causes are the same.
pub fn same_why(one: &Why, other: &Why) -> bool
    ensures { IsTrue result ↔ (one.now ≡ other.now) }
{
    match (one, other) {
        (Why::Pushed { by }, Why::Pushed { by: other }) => same_who(*by, *other),
        (
            Why::Missing { key, by },
            Why::Missing {
                key: place,
                by: other,
            },
        ) => { is_key(key, place) && same_who(*by, *other) }
        (Why::Refresh { key, ts }, Why::Refresh { key: place, ts: at }) => {
            is_key(key, place) && *ts == *at
        }
        (Why::Client, Why::Client) => true,
        _ => false,
    }
}

/// Whether the two findings are the same.
pub fn same_finding(one: &Finding, other: &Finding) -> bool
    ensures { IsTrue result ↔ (one.now ≡ other.now) }
{
    match (one, other) {
        (Finding::All, Finding::All) => true,
        (
            Finding::Missing { key, by },
            Finding::Missing {
                key: place,
                by: other,
            },
        ) => { is_key(key, place) && same_who(*by, *other) }
        _ => false,
    }
}

/// Whether the two fates are the same.
pub fn same_fate(one: Fate, other: Fate) -> bool
    ensures { IsTrue result ↔ (one ≡ other) }
{
    one == other
}
