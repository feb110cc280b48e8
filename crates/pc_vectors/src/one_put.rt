//! One put and its commit, then the finishing of the transaction.

use crate::row::Row;

pub const ONE_PUT: Row = Row {
    name: "one_put",
    input: br#"{"version":1,"pipelining":false,"sessions":[{"clock":{"start":10,"step":1},"script":[{"do":[{"put":["a","x"]}]}]}],"turns":[]}"#,
    output: b"journal 1\n\
        ranges 1\n\
        actors 1 0\n\
        0 s1 ask begin normal @10\n\
        1 s1 tell begun 1.1 10.0\n\
        2 s1 ask put a =x @11\n\
        3 s1 send 1 r0 put 1.1:0:normal:10:a 1 10.0 a =x\n\
        4 r0 eval s1 1 written 10.0\n\
        5 s1 hear 1 4\n\
        6 s1 tell written\n\
        7 s1 ask commit @12\n\
        8 s1 send 2 r0 commit 1.1:0:normal:10:a 10.0 a\n\
        9 r0 eval s1 2 status committed 0 10.0 a\n\
        10 s1 hear 2 9\n\
        11 s1 tell committed 1.1 10.0\n\
        12 s1 send 3 r0 resolve 1.1 a committed 0 10.0\n\
        13 r0 eval s1 3 resolved\n\
        14 s1 hear 3 13\n\
        15 s1 send 4 r0 remove 1.1 a\n\
        16 r0 eval s1 4 removed\n\
        17 s1 hear 4 16\n\
        report\n\
        committed 1.1 10.0 a=x\n\
        map a=x\n\
        end\n",
};
