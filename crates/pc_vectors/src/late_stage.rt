//! A put is written above the timestamp at which its commit stages, so the commit refreshes what was read and goes on there.

use crate::row::Row;

pub const LATE_STAGE: Row = Row {
    name: "late_stage",
    input: br#"{"version":1,"sessions":[{"clock":{"start":10,"step":0},"script":[{"do":[{"get":"b"},{"put":["a","x"]}]}]},{"clock":{"start":20,"step":0},"script":[{"do":[{"get":"a"}]}]}],"turns":["s1","s1","s2","s2","s2"]}"#,
    output: b"journal 1\n\
        ranges 1\n\
        actors 2 0\n\
        0 s1 ask begin normal @10\n\
        1 s1 tell begun 1.1 10.0\n\
        2 s1 ask get b @10\n\
        3 s1 send 1 r0 get 1.1:0:0 10.0 b\n\
        4 r0 eval s1 1 value - -\n\
        5 s1 hear 1 4\n\
        6 s1 tell value -\n\
        7 s2 ask begin normal @20\n\
        8 s2 tell begun 2.1 20.0\n\
        9 s2 ask get a @20\n\
        10 s2 send 1 r0 get 2.1:0:0 20.0 a\n\
        11 r0 eval s2 1 value - -\n\
        12 s2 hear 1 11\n\
        13 s2 tell value -\n\
        14 s2 ask commit @20\n\
        15 s2 tell committed 2.1 20.0\n\
        16 s1 ask put a =x @10\n\
        17 s1 send 2 r0 put 1.1:0:normal:10:a 1 10.0 a =x\n\
        18 s1 tell written\n\
        19 s1 ask commit @10\n\
        20 s1 send 3 r0 stage 1.1:0:normal:10:a 10.0 10 a:1 a\n\
        21 r0 eval s1 2 written 20.1\n\
        22 r0 eval s1 3 status staging 0 10.0 a:1\n\
        23 s1 hear 2 21\n\
        24 s1 hear 3 22\n\
        25 s1 send 4 r0 refresh 1.1 10.0 20.1 b\n\
        26 r0 eval s1 4 refreshed\n\
        27 s1 hear 4 26\n\
        28 s1 send 5 r0 commit 1.1:0:normal:10:a 20.1 a\n\
        29 r0 eval s1 5 status committed 0 20.1 a\n\
        30 s1 hear 5 29\n\
        31 s1 tell committed 1.1 20.1\n\
        32 s1 send 6 r0 resolve 1.1 a committed 0 20.1\n\
        33 r0 eval s1 6 resolved\n\
        34 s1 hear 6 33\n\
        35 s1 send 7 r0 remove 1.1 a\n\
        36 r0 eval s1 7 removed\n\
        37 s1 hear 7 36\n\
        report\n\
        committed 2.1 20.0 -\n\
        committed 1.1 20.1 a=x\n\
        map a=x\n\
        end\n",
};
