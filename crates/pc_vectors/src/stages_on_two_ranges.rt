//! Two sessions stage at one timestamp, one on each of two ranges.

use crate::row::Row;

pub const STAGES_ON_TWO_RANGES: Row = Row {
    name: "stages_on_two_ranges",
    input: br#"{"version":1,"splits":["m"],"sessions":[{"clock":{"start":10,"step":0},"script":[{"do":[{"get":"k"},{"put":["z","w"]}]}]},{"clock":{"start":10,"step":0},"script":[{"do":[{"put":["k","v"]}]}]}],"turns":["s1","s2","s2","s2","b2"]}"#,
    output: b"journal 1\n\
        ranges 2 m\n\
        actors 2 0\n\
        0 s1 ask begin normal @10\n\
        1 s1 tell begun 1.1 10.0\n\
        2 s2 ask begin normal @10\n\
        3 s2 tell begun 2.1 10.0\n\
        4 s2 ask put k =v @10\n\
        5 s2 send 1 r0 put 2.1:0:normal:10:k 1 10.0 k =v\n\
        6 s2 tell written\n\
        7 s2 ask commit @10\n\
        8 s2 send 2 r0 stage 2.1:0:normal:10:k 10.0 10 k:1 k\n\
        9 r0 eval s2 1 written 10.0\n\
        10 r0 eval s2 2 status staging 0 10.0 k:1\n\
        11 s2 hear 1 9\n\
        12 s2 hear 2 10\n\
        13 s2 tell committed 2.1 10.0\n\
        14 s2 send 3 r0 commit 2.1:0:normal:10:k 10.0 k\n\
        15 r0 eval s2 3 status committed 0 10.0 k\n\
        16 s2 hear 3 15\n\
        17 s2 send 4 r0 resolve 2.1 k committed 0 10.0\n\
        18 r0 eval s2 4 resolved\n\
        19 s2 hear 4 18\n\
        20 s2 send 5 r0 remove 2.1 k\n\
        21 r0 eval s2 5 removed\n\
        22 s2 hear 5 21\n\
        23 s1 ask get k @10\n\
        24 s1 send 1 r0 get 1.1:0:0 10.0 k\n\
        25 r0 eval s1 1 value 10.0 =v\n\
        26 s1 hear 1 25\n\
        27 s1 tell value =v\n\
        28 s1 ask put z =w @10\n\
        29 s1 send 2 r1 put 1.1:0:normal:10:z 1 10.0 z =w\n\
        30 s1 tell written\n\
        31 s1 ask commit @10\n\
        32 s1 send 3 r1 stage 1.1:0:normal:10:z 10.0 10 z:1 z\n\
        33 r1 eval s1 2 written 10.0\n\
        34 r1 eval s1 3 status staging 0 10.0 z:1\n\
        35 s1 hear 2 33\n\
        36 s1 hear 3 34\n\
        37 s1 tell committed 1.1 10.0\n\
        38 s1 send 4 r1 commit 1.1:0:normal:10:z 10.0 z\n\
        39 r1 eval s1 4 status committed 0 10.0 z\n\
        40 s1 hear 4 39\n\
        41 s1 send 5 r1 resolve 1.1 z committed 0 10.0\n\
        42 r1 eval s1 5 resolved\n\
        43 s1 hear 5 42\n\
        44 s1 send 6 r1 remove 1.1 z\n\
        45 r1 eval s1 6 removed\n\
        46 s1 hear 6 45\n\
        report\n\
        committed 2.1 10.0 k=v\n\
        committed 1.1 10.0 z=w\n\
        map k=v\n\
        map z=w\n\
        end\n",
};
