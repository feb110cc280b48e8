//! A commit stages in the wave in which its three puts are delivered, on two ranges.

use crate::row::Row;

pub const STAGE_BESIDE_ITS_PUTS: Row = Row {
    name: "stage_beside_its_puts",
    input: br#"{"version":1,"splits":["m"],"sessions":[{"clock":{"start":10,"step":1},"script":[{"do":[{"put":["a","1"]},{"put":["b","2"]},{"put":["n","3"]}]}]}],"turns":[]}"#,
    output: b"journal 1\n\
        ranges 2 m\n\
        actors 1 0\n\
        0 s1 ask begin normal @10\n\
        1 s1 tell begun 1.1 10.0\n\
        2 s1 ask put a =1 @11\n\
        3 s1 send 1 r0 put 1.1:0:normal:10:a 1 10.0 a =1\n\
        4 s1 tell written\n\
        5 s1 ask put b =2 @12\n\
        6 s1 send 2 r0 put 1.1:0:normal:10:a 2 10.0 b =2\n\
        7 s1 tell written\n\
        8 s1 ask put n =3 @13\n\
        9 s1 send 3 r1 put 1.1:0:normal:10:a 3 10.0 n =3\n\
        10 s1 tell written\n\
        11 s1 ask commit @14\n\
        12 s1 send 4 r0 stage 1.1:0:normal:10:a 10.0 14 a:1,b:2,n:3 a,b,n\n\
        13 r0 eval s1 1 written 10.0\n\
        14 r0 eval s1 2 written 10.0\n\
        15 r1 eval s1 3 written 10.0\n\
        16 r0 eval s1 4 status staging 0 10.0 a:1,b:2,n:3\n\
        17 s1 hear 1 13\n\
        18 s1 hear 2 14\n\
        19 s1 hear 3 15\n\
        20 s1 hear 4 16\n\
        21 s1 tell committed 1.1 10.0\n\
        22 s1 send 5 r0 commit 1.1:0:normal:10:a 10.0 a,b,n\n\
        23 r0 eval s1 5 status committed 0 10.0 a,b,n\n\
        24 s1 hear 5 23\n\
        25 s1 send 6 r0 resolve 1.1 a committed 0 10.0\n\
        26 r0 eval s1 6 resolved\n\
        27 s1 hear 6 26\n\
        28 s1 send 7 r0 resolve 1.1 b committed 0 10.0\n\
        29 r0 eval s1 7 resolved\n\
        30 s1 hear 7 29\n\
        31 s1 send 8 r1 resolve 1.1 n committed 0 10.0\n\
        32 r1 eval s1 8 resolved\n\
        33 s1 hear 8 32\n\
        34 s1 send 9 r0 remove 1.1 a\n\
        35 r0 eval s1 9 removed\n\
        36 s1 hear 9 35\n\
        report\n\
        committed 1.1 10.0 a=1,b=2,n=3\n\
        map a=1\n\
        map b=2\n\
        map n=3\n\
        end\n",
};
