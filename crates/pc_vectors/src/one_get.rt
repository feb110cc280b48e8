//! A transaction that only reads: it commits with no message but the read.

use crate::row::Row;

pub const ONE_GET: Row = Row {
    name: "one_get",
    input: br#"{"version":1,"pipelining":false,"sessions":[{"clock":{"start":10,"step":1},"script":[{"do":[{"get":"a"}]}]}],"turns":[]}"#,
    output: b"journal 1\n\
        ranges 1\n\
        actors 1 0\n\
        0 s1 ask begin normal @10\n\
        1 s1 tell begun 1.1 10.0\n\
        2 s1 ask get a @11\n\
        3 s1 send 1 r0 get 1.1:0:0 10.0 a\n\
        4 r0 eval s1 1 value - -\n\
        5 s1 hear 1 4\n\
        6 s1 tell value -\n\
        7 s1 ask commit @12\n\
        8 s1 tell committed 1.1 10.0\n\
        report\n\
        committed 1.1 10.0 -\n\
        end\n",
};
