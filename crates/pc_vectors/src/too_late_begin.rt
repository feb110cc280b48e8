//! The least reading at which no transaction may begin.

use crate::row::Row;

pub const TOO_LATE_BEGIN: Row = Row {
    name: "too_late_begin",
    input: br#"{"version":1,"pipelining":false,"sessions":[{"clock":{"start":4611686018427387905,"step":0},"script":[{"do":[]}]}],"turns":[]}"#,
    output: b"journal 1\n\
        ranges 1\n\
        actors 1 0\n\
        0 s1 ask begin normal @4611686018427387905\n\
        1 s1 tell clock 4611686018427387905\n\
        report\n\
        end\n",
};
