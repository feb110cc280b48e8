//! A session that has nothing to do.

use crate::row::Row;

pub const NO_TRANSACTION: Row = Row {
    name: "no_transaction",
    input: br#"{"version":1,"pipelining":false,"sessions":[{"clock":{"start":10,"step":1},"script":[]}],"turns":[]}"#,
    output: b"journal 1\n\
        ranges 1\n\
        actors 1 0\n\
        report\n\
        end\n",
};
