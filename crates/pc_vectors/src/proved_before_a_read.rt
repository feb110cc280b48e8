//! A read waits for the reply to the transaction's own write, which was told written as it went out.

use crate::row::Row;

pub const PROVED_BEFORE_A_READ: Row = Row {
    name: "proved_before_a_read",
    input: br#"{"version":1,"sessions":[{"clock":{"start":10,"step":1},"script":[{"do":[{"put":["a","x"]},{"get":"a"}]}]}],"turns":[]}"#,
    output: b"journal 1\n\
        ranges 1\n\
        actors 1 0\n\
        0 s1 ask begin normal @10\n\
        1 s1 tell begun 1.1 10.0\n\
        2 s1 ask put a =x @11\n\
        3 s1 send 1 r0 put 1.1:0:normal:10:a 1 10.0 a =x\n\
        4 s1 tell written\n\
        5 s1 ask get a @12\n\
        6 r0 eval s1 1 written 10.0\n\
        7 s1 hear 1 6\n\
        8 s1 send 2 r0 get 1.1:0:1 10.0 a\n\
        9 r0 eval s1 2 value own =x\n\
        10 s1 hear 2 9\n\
        11 s1 tell value =x\n\
        12 s1 ask commit @13\n\
        13 s1 send 3 r0 commit 1.1:0:normal:10:a 10.0 a\n\
        14 r0 eval s1 3 status committed 0 10.0 a\n\
        15 s1 hear 3 14\n\
        16 s1 tell committed 1.1 10.0\n\
        17 s1 send 4 r0 resolve 1.1 a committed 0 10.0\n\
        18 r0 eval s1 4 resolved\n\
        19 s1 hear 4 18\n\
        20 s1 send 5 r0 remove 1.1 a\n\
        21 r0 eval s1 5 removed\n\
        22 s1 hear 5 21\n\
        report\n\
        committed 1.1 10.0 a=x\n\
        map a=x\n\
        end\n",
};
