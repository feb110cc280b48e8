//! The greatest reading at which a transaction may begin.

use crate::row::Row;

pub const LATEST_BEGIN: Row = Row {
    name: "latest_begin",
    input: br#"{"version":1,"pipelining":false,"sessions":[{"clock":{"start":4611686018427387904,"step":0},"script":[{"do":[]}]}],"turns":[]}"#,
    output: b"journal 1\n\
        ranges 1\n\
        actors 1 0\n\
        0 s1 ask begin normal @4611686018427387904\n\
        1 s1 tell begun 1.1 4611686018427387904.0\n\
        2 s1 ask commit @4611686018427387904\n\
        3 s1 tell committed 1.1 4611686018427387904.0\n\
        report\n\
        committed 1.1 4611686018427387904.0 -\n\
        end\n",
};
