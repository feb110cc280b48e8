//! A reader moves a transaction, so its stage is refused and its commit goes on above.

use crate::row::Row;

pub const REFUSED_STAGE: Row = Row {
    name: "refused_stage",
    input: br#"{"version":1,"sessions":[{"clock":{"start":10,"step":0},"script":[{"do":[{"put":["a","x"]},{"get":"a"},{"put":["b","y"]}]}]},{"clock":{"start":20,"step":0},"script":[{"do":[{"get":"a"}],"priority":"high"}]}],"turns":["s1","s1","s1","s1","s2","s2","s2"]}"#,
    output: b"journal 1\n\
        ranges 1\n\
        actors 2 0\n\
        0 s1 ask begin normal @10\n\
        1 s1 tell begun 1.1 10.0\n\
        2 s1 ask put a =x @10\n\
        3 s1 send 1 r0 put 1.1:0:normal:10:a 1 10.0 a =x\n\
        4 s1 tell written\n\
        5 s1 ask get a @10\n\
        6 r0 eval s1 1 written 10.0\n\
        7 s1 hear 1 6\n\
        8 s1 send 2 r0 get 1.1:0:1 10.0 a\n\
        9 r0 eval s1 2 value own =x\n\
        10 s1 hear 2 9\n\
        11 s1 tell value =x\n\
        12 s1 ask put b =y @10\n\
        13 s1 send 3 r0 put 1.1:0:normal:10:a 2 10.0 b =y\n\
        14 s1 tell written\n\
        15 s2 ask begin high @20\n\
        16 s2 tell begun 2.1 20.0\n\
        17 s2 ask get a @20\n\
        18 s2 send 1 r0 get 2.1:0:0 20.0 a\n\
        19 r0 eval s2 1 conflict 1.1:0:normal:10:a 10.0 a\n\
        20 s2 hear 1 19\n\
        21 s2 send 2 r0 push 1.1:0:normal:10:a 2.1 high 20 move 20.1\n\
        22 r0 eval s2 2 status pending 0 20.1\n\
        23 s2 hear 2 22\n\
        24 s2 send 3 r0 resolve 1.1 a pending 20.1\n\
        25 r0 eval s2 3 resolved\n\
        26 s2 hear 3 25\n\
        27 s2 send 4 r0 get 2.1:0:0 20.0 a\n\
        28 r0 eval s2 4 value - -\n\
        29 s2 hear 4 28\n\
        30 s2 tell value -\n\
        31 s2 ask commit @20\n\
        32 s2 tell committed 2.1 20.0\n\
        33 s1 ask commit @10\n\
        34 s1 send 4 r0 stage 1.1:0:normal:10:a 10.0 10 b:2 a,b\n\
        35 r0 eval s1 3 written 20.1\n\
        36 r0 eval s1 4 status pending 0 20.1\n\
        37 s1 hear 3 35\n\
        38 s1 hear 4 36\n\
        39 s1 send 5 r0 refresh 1.1 10.0 20.1 a\n\
        40 r0 eval s1 5 refreshed\n\
        41 s1 hear 5 40\n\
        42 s1 send 6 r0 commit 1.1:0:normal:10:a 20.1 a,b\n\
        43 r0 eval s1 6 status committed 0 20.1 a,b\n\
        44 s1 hear 6 43\n\
        45 s1 tell committed 1.1 20.1\n\
        46 s1 send 7 r0 resolve 1.1 a committed 0 20.1\n\
        47 r0 eval s1 7 resolved\n\
        48 s1 hear 7 47\n\
        49 s1 send 8 r0 resolve 1.1 b committed 0 20.1\n\
        50 r0 eval s1 8 resolved\n\
        51 s1 hear 8 50\n\
        52 s1 send 9 r0 remove 1.1 a\n\
        53 r0 eval s1 9 removed\n\
        54 s1 hear 9 53\n\
        report\n\
        committed 2.1 20.0 -\n\
        committed 1.1 20.1 a=x,b=y\n\
        map a=x\n\
        map b=y\n\
        end\n",
};
