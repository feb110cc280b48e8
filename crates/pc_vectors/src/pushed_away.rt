//! A writer of high priority aborts one of normal priority that stands in its way.

use crate::row::Row;

pub const PUSHED_AWAY: Row = Row {
    name: "pushed_away",
    input: br#"{"version":1,"pipelining":false,"sessions":[{"clock":{"start":10,"step":0},"script":[{"do":[{"put":["a","x"]}]}]},{"clock":{"start":20,"step":0},"script":[{"do":[{"put":["a","y"]}],"priority":"high"}]}],"turns":["s1","s1","s2","s2","s2"]}"#,
    output: b"journal 1\n\
        ranges 1\n\
        actors 2 0\n\
        0 s1 ask begin normal @10\n\
        1 s1 tell begun 1.1 10.0\n\
        2 s1 ask put a =x @10\n\
        3 s1 send 1 r0 put 1.1:0:normal:10:a 1 10.0 a =x\n\
        4 r0 eval s1 1 written 10.0\n\
        5 s1 hear 1 4\n\
        6 s1 tell written\n\
        7 s2 ask begin high @20\n\
        8 s2 tell begun 2.1 20.0\n\
        9 s2 ask put a =y @20\n\
        10 s2 send 1 r0 put 2.1:0:high:20:a 1 20.0 a =y\n\
        11 r0 eval s2 1 conflict 1.1:0:normal:10:a 10.0 a\n\
        12 s2 hear 1 11\n\
        13 s2 send 2 r0 push 1.1:0:normal:10:a 2.1 high 20 abort\n\
        14 r0 eval s2 2 status aborted 0 pushed:2.1 -\n\
        15 s2 hear 2 14\n\
        16 s2 send 3 r0 resolve 1.1 a aborted\n\
        17 r0 eval s2 3 resolved\n\
        18 s2 hear 3 17\n\
        19 s2 send 4 r0 put 2.1:0:high:20:a 1 20.0 a =y\n\
        20 r0 eval s2 4 written 20.0\n\
        21 s2 hear 4 20\n\
        22 s2 tell written\n\
        23 s2 ask commit @20\n\
        24 s2 send 5 r0 commit 2.1:0:high:20:a 20.0 a\n\
        25 r0 eval s2 5 status committed 0 20.0 a\n\
        26 s2 hear 5 25\n\
        27 s2 tell committed 2.1 20.0\n\
        28 s1 ask commit @10\n\
        29 s1 send 2 r0 commit 1.1:0:normal:10:a 10.0 a\n\
        30 r0 eval s1 2 status aborted 0 pushed:2.1 -\n\
        31 s1 hear 2 30\n\
        32 s1 tell aborted pushed:2.1\n\
        33 s1 send 3 r0 resolve 1.1 a aborted\n\
        34 r0 eval s1 3 resolved\n\
        35 s1 hear 3 34\n\
        36 s1 send 4 r0 remove 1.1 a\n\
        37 r0 eval s1 4 removed\n\
        38 s1 hear 4 37\n\
        39 s2 send 6 r0 resolve 2.1 a committed 0 20.0\n\
        40 r0 eval s2 6 resolved\n\
        41 s2 hear 6 40\n\
        42 s2 send 7 r0 remove 2.1 a\n\
        43 r0 eval s2 7 removed\n\
        44 s2 hear 7 43\n\
        report\n\
        committed 2.1 20.0 a=y\n\
        aborted 1.1 pushed:2.1\n\
        map a=y\n\
        end\n",
};
