ghost use Rattle.std.specs.Prelude.{◌≡◌, ◌↔◌, IsTrue};

use pc_base::{Key, Value, Who};
use pc_proto::{Keys, Metas, Reply, Rows, TxnMeta, View, Why, Writes};

/// Whether the two are the same reply.
pub fn same_reply(one: &Reply, other: &Reply) -> bool
    ensures { IsTrue result ↔ (one.now ≡ other.now) }
{
    match (one, other) {
        (
            Reply::Value { origin, value },
            Reply::Value {
                origin: another,
                value: read,
            },
        ) => *origin == *another && same_value(value, read),
        (Reply::Rows(rows), Reply::Rows(others)) => same_rows(rows, others),
        (
            Reply::Conflict { holder, ts, key },
            Reply::Conflict {
                holder: another,
                ts: at,
                key: place,
            },
        ) => same_meta(holder, another) && *ts == *at && same_key(key, place),
        (Reply::Written { ts }, Reply::Written { ts: at }) => *ts == *at,
        (Reply::Unrefreshed { key, ts }, Reply::Unrefreshed { key: place, ts: at }) => {
            same_key(key, place) && *ts == *at
        }
        (Reply::Status(view), Reply::Status(another))
        | (Reply::Refused(view), Reply::Refused(another))
        | (Reply::Unsure(view), Reply::Unsure(another)) => same_view(view, another),
        (Reply::Listed(metas), Reply::Listed(others)) => same_metas(metas, others),
        (Reply::Refreshed, Reply::Refreshed)
        | (Reply::Found, Reply::Found)
        | (Reply::Missing, Reply::Missing)
        | (Reply::Resolved, Reply::Resolved)
        | (Reply::Removed, Reply::Removed) => true,
        _ => false,
    }
}

fn same_view(one: &View, other: &View) -> bool
    ensures { IsTrue result ↔ (one.now ≡ other.now) }
{
    match (one, other) {
        (View::Nothing, View::Nothing) => true,
        (
            View::Pending { epoch, ts },
            View::Pending {
                epoch: other,
                ts: at,
            },
        ) => { *epoch == *other && *ts == *at }
        (
            View::Staging { epoch, ts, writes },
            View::Staging {
                epoch: other,
                ts: at,
                writes: others,
            },
        ) => *epoch == *other && *ts == *at && same_writes(writes, others),
        (
            View::Committed { epoch, ts, locks },
            View::Committed {
                epoch: other,
                ts: at,
                locks: others,
            },
        ) => *epoch == *other && *ts == *at && same_keys(locks, others),
        (
            View::Aborted { epoch, why, locks },
            View::Aborted {
                epoch: other,
                why: cause,
                locks: others,
            },
        ) => *epoch == *other && same_why(why, cause) && same_keys(locks, others),
        _ => false,
    }
}

fn same_why(one: &Why, other: &Why) -> bool
    ensures { IsTrue result ↔ (one.now ≡ other.now) }
{
    match (one, other) {
        (Why::Pushed { by }, Why::Pushed { by: other }) => same_who(*by, *other),
        (
            Why::Missing { key, by },
            Why::Missing {
                key: place,
                by: other,
            },
        ) => { same_key(key, place) && same_who(*by, *other) }
        (Why::Refresh { key, ts }, Why::Refresh { key: place, ts: at }) => {
            same_key(key, place) && *ts == *at
        }
        (Why::Client, Why::Client) => true,
        _ => false,
    }
}

fn same_meta(one: &TxnMeta, other: &TxnMeta) -> bool
    ensures { IsTrue result ↔ (one.now ≡ other.now) }
{
    *one == *other
}

fn same_value(one: &Option<Value>, other: &Option<Value>) -> bool
    ensures { IsTrue result ↔ (one.now ≡ other.now) }
{
    *one == *other
}

fn same_key(one: &Key, other: &Key) -> bool
    ensures { IsTrue result ↔ (one.now ≡ other.now) }
{
    *one == *other
}

fn same_who(one: Who, other: Who) -> bool
    ensures { IsTrue result ↔ (one ≡ other) }
{
    one == other
}

fn same_rows(one: &Rows, other: &Rows) -> bool
    ensures { IsTrue result ↔ (one.now ≡ other.now) }
{
    *one == *other
}

fn same_metas(one: &Metas, other: &Metas) -> bool
    ensures { IsTrue result ↔ (one.now ≡ other.now) }
{
    *one == *other
}

fn same_keys(one: &Keys, other: &Keys) -> bool
    ensures { IsTrue result ↔ (one.now ≡ other.now) }
{
    *one == *other
}

fn same_writes(one: &Writes, other: &Writes) -> bool
    ensures { IsTrue result ↔ (one.now ≡ other.now) }
{
    *one == *other
}
