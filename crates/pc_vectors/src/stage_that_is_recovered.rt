//! The session stops behind its stage, and a recoverer finds all that was staged: it commits.

use crate::row::Row;

pub const STAGE_THAT_IS_RECOVERED: Row = Row {
    name: "stage_that_is_recovered",
    input: br#"{"version":1,"splits":["m"],"sessions":[{"clock":{"start":10,"step":1},"script":[{"do":[{"put":["a","1"]},{"put":["b","2"]},{"put":["n","3"]}]}],"stop":14}],"recoverers":[{"clock":{"start":20,"step":1},"level":"high","rounds":1}],"turns":[]}"#,
    output: b"journal 1\n\
        ranges 2 m\n\
        actors 1 1\n\
        0 s1 ask begin normal @10\n\
        1 s1 tell begun 1.1 10.0\n\
        2 s1 ask put a =1 @11\n\
        3 s1 send 1 r0 put 1.1:0:normal:10:a 1 10.0 a =1\n\
        4 s1 tell written\n\
        5 s1 ask put b =2 @12\n\
        6 s1 send 2 r0 put 1.1:0:normal:10:a 2 10.0 b =2\n\
        7 s1 tell written\n\
        8 s1 ask put n =3 @13\n\
        9 s1 send 3 r1 put 1.1:0:normal:10:a 3 10.0 n =3\n\
        10 s1 tell written\n\
        11 s1 ask commit @14\n\
        12 s1 send 4 r0 stage 1.1:0:normal:10:a 10.0 14 a:1,b:2,n:3 a,b,n\n\
        13 r0 eval s1 1 written 10.0\n\
        14 r0 eval s1 2 written 10.0\n\
        15 r1 eval s1 3 written 10.0\n\
        16 r0 eval s1 4 status staging 0 10.0 a:1,b:2,n:3\n\
        17 s1 hear 1 13\n\
        18 v1 ask round @20\n\
        19 v1 send 1 r0 records\n\
        20 r0 eval v1 1 listed 1.1:0:normal:10:a\n\
        21 v1 hear 1 20\n\
        22 v1 send 2 r0 push 1.1:0:normal:10:a v1 high 20 abort\n\
        23 r0 eval v1 2 unsure staging 0 10.0 a:1,b:2,n:3\n\
        24 v1 hear 2 23\n\
        25 v1 send 3 r0 query 1.1:0:1 10.0 a v1\n\
        26 r0 eval v1 3 found\n\
        27 v1 hear 3 26\n\
        28 v1 send 4 r0 query 1.1:0:2 10.0 b v1\n\
        29 r0 eval v1 4 found\n\
        30 v1 hear 4 29\n\
        31 v1 send 5 r1 query 1.1:0:3 10.0 n v1\n\
        32 r1 eval v1 5 found\n\
        33 v1 hear 5 32\n\
        34 v1 send 6 r0 recover 1.1 0 10.0 a found\n\
        35 r0 eval v1 6 status committed 0 10.0 a,b,n\n\
        36 v1 hear 6 35\n\
        37 v1 send 7 r0 resolve 1.1 a committed 0 10.0\n\
        38 r0 eval v1 7 resolved\n\
        39 v1 hear 7 38\n\
        40 v1 send 8 r0 resolve 1.1 b committed 0 10.0\n\
        41 r0 eval v1 8 resolved\n\
        42 v1 hear 8 41\n\
        43 v1 send 9 r1 resolve 1.1 n committed 0 10.0\n\
        44 r1 eval v1 9 resolved\n\
        45 v1 hear 9 44\n\
        46 v1 send 10 r0 remove 1.1 a\n\
        47 r0 eval v1 10 removed\n\
        48 v1 hear 10 47\n\
        49 v1 send 11 r1 records\n\
        50 r1 eval v1 11 listed -\n\
        51 v1 hear 11 50\n\
        52 v1 tell done\n\
        report\n\
        committed 1.1 10.0 a=1,b=2,n=3\n\
        map a=1\n\
        map b=2\n\
        map n=3\n\
        end\n",
};
