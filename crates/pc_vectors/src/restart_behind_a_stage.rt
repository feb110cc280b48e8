//! The same, but what was read was written since: the transaction begins its next epoch.

use crate::row::Row;

pub const RESTART_BEHIND_A_STAGE: Row = Row {
    name: "restart_behind_a_stage",
    input: br#"{"version":1,"sessions":[{"clock":{"start":10,"step":0},"script":[{"do":[{"get":"b"},{"put":["a","x"]}]}]},{"clock":{"start":20,"step":0},"script":[{"do":[{"get":"a"},{"put":["b","y"]}]}]}],"turns":["s1","s1","s2","s2","s2","s2","b2"]}"#,
    output: b"journal 1\n\
        ranges 1\n\
        actors 2 0\n\
        0 s1 ask begin normal @10\n\
        1 s1 tell begun 1.1 10.0\n\
        2 s1 ask get b @10\n\
        3 s1 send 1 r0 get 1.1:0:0 10.0 b\n\
        4 r0 eval s1 1 value - -\n\
        5 s1 hear 1 4\n\
        6 s1 tell value -\n\
        7 s2 ask begin normal @20\n\
        8 s2 tell begun 2.1 20.0\n\
        9 s2 ask get a @20\n\
        10 s2 send 1 r0 get 2.1:0:0 20.0 a\n\
        11 r0 eval s2 1 value - -\n\
        12 s2 hear 1 11\n\
        13 s2 tell value -\n\
        14 s2 ask put b =y @20\n\
        15 s2 send 2 r0 put 2.1:0:normal:20:b 1 20.0 b =y\n\
        16 s2 tell written\n\
        17 s2 ask commit @20\n\
        18 s2 send 3 r0 stage 2.1:0:normal:20:b 20.0 20 b:1 b\n\
        19 r0 eval s2 2 written 20.0\n\
        20 r0 eval s2 3 status staging 0 20.0 b:1\n\
        21 s2 hear 2 19\n\
        22 s2 hear 3 20\n\
        23 s2 tell committed 2.1 20.0\n\
        24 s2 send 4 r0 commit 2.1:0:normal:20:b 20.0 b\n\
        25 r0 eval s2 4 status committed 0 20.0 b\n\
        26 s2 hear 4 25\n\
        27 s2 send 5 r0 resolve 2.1 b committed 0 20.0\n\
        28 r0 eval s2 5 resolved\n\
        29 s2 hear 5 28\n\
        30 s2 send 6 r0 remove 2.1 b\n\
        31 r0 eval s2 6 removed\n\
        32 s2 hear 6 31\n\
        33 s1 ask put a =x @10\n\
        34 s1 send 2 r0 put 1.1:0:normal:10:a 1 10.0 a =x\n\
        35 s1 tell written\n\
        36 s1 ask commit @10\n\
        37 s1 send 3 r0 stage 1.1:0:normal:10:a 10.0 10 a:1 a\n\
        38 r0 eval s1 2 written 20.1\n\
        39 r0 eval s1 3 status staging 0 10.0 a:1\n\
        40 s1 hear 2 38\n\
        41 s1 hear 3 39\n\
        42 s1 send 4 r0 refresh 1.1 10.0 20.1 b\n\
        43 r0 eval s1 4 unrefreshed b 20.0\n\
        44 s1 hear 4 43\n\
        45 s1 tell restart b 20.0\n\
        46 s1 ask get b @10\n\
        47 s1 send 5 r0 get 1.1:1:0 20.1 b\n\
        48 r0 eval s1 5 value 20.0 =y\n\
        49 s1 hear 5 48\n\
        50 s1 tell value =y\n\
        51 s1 ask put a =x @10\n\
        52 s1 send 6 r0 put 1.1:1:normal:10:a 1 20.1 a =x\n\
        53 s1 tell written\n\
        54 s1 ask commit @10\n\
        55 s1 send 7 r0 stage 1.1:1:normal:10:a 20.1 10 a:1 a\n\
        56 r0 eval s1 6 written 20.1\n\
        57 r0 eval s1 7 status staging 1 20.1 a:1\n\
        58 s1 hear 6 56\n\
        59 s1 hear 7 57\n\
        60 s1 tell committed 1.1 20.1\n\
        61 s1 send 8 r0 commit 1.1:1:normal:10:a 20.1 a\n\
        62 r0 eval s1 8 status committed 1 20.1 a\n\
        63 s1 hear 8 62\n\
        64 s1 send 9 r0 resolve 1.1 a committed 1 20.1\n\
        65 r0 eval s1 9 resolved\n\
        66 s1 hear 9 65\n\
        67 s1 send 10 r0 remove 1.1 a\n\
        68 r0 eval s1 10 removed\n\
        69 s1 hear 10 68\n\
        report\n\
        committed 2.1 20.0 b=y\n\
        committed 1.1 20.1 a=x\n\
        map a=x\n\
        map b=y\n\
        end\n",
};
