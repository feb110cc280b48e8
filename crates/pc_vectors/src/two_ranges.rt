//! Three transactions over two ranges: two puts, a scan of everything, and a delete that is rolled back.

use crate::row::Row;

pub const TWO_RANGES: Row = Row {
    name: "two_ranges",
    input: br#"{"version":1,"pipelining":false,"splits":["m"],"sessions":[{"clock":{"start":10,"step":1},"script":[{"do":[{"put":["a","1"]},{"put":["n","2"]}]},{"do":[{"scan":["",""]}]},{"do":[{"delete":"a"}],"end":"rollback"}]}],"turns":[]}"#,
    output: b"journal 1\n\
        ranges 2 m\n\
        actors 1 0\n\
        0 s1 ask begin normal @10\n\
        1 s1 tell begun 1.1 10.0\n\
        2 s1 ask put a =1 @11\n\
        3 s1 send 1 r0 put 1.1:0:normal:10:a 1 10.0 a =1\n\
        4 r0 eval s1 1 written 10.0\n\
        5 s1 hear 1 4\n\
        6 s1 tell written\n\
        7 s1 ask put n =2 @12\n\
        8 s1 send 2 r1 put 1.1:0:normal:10:a 2 10.0 n =2\n\
        9 r1 eval s1 2 written 10.0\n\
        10 s1 hear 2 9\n\
        11 s1 tell written\n\
        12 s1 ask commit @13\n\
        13 s1 send 3 r0 commit 1.1:0:normal:10:a 10.0 a,n\n\
        14 r0 eval s1 3 status committed 0 10.0 a,n\n\
        15 s1 hear 3 14\n\
        16 s1 tell committed 1.1 10.0\n\
        17 s1 send 4 r0 resolve 1.1 a committed 0 10.0\n\
        18 r0 eval s1 4 resolved\n\
        19 s1 hear 4 18\n\
        20 s1 send 5 r1 resolve 1.1 n committed 0 10.0\n\
        21 r1 eval s1 5 resolved\n\
        22 s1 hear 5 21\n\
        23 s1 send 6 r0 remove 1.1 a\n\
        24 r0 eval s1 6 removed\n\
        25 s1 hear 6 24\n\
        26 s1 ask begin normal @14\n\
        27 s1 tell begun 1.2 14.0\n\
        28 s1 ask scan -,- @15\n\
        29 s1 send 7 r0 scan 1.2:0:0 14.0 -,m\n\
        30 s1 send 8 r1 scan 1.2:0:0 14.0 m,-\n\
        31 r0 eval s1 7 rows a@10.0=1\n\
        32 r1 eval s1 8 rows n@10.0=2\n\
        33 s1 hear 7 31\n\
        34 s1 hear 8 32\n\
        35 s1 tell rows a=1,n=2\n\
        36 s1 ask commit @16\n\
        37 s1 tell committed 1.2 14.0\n\
        38 s1 ask begin normal @17\n\
        39 s1 tell begun 1.3 17.0\n\
        40 s1 ask delete a @18\n\
        41 s1 send 9 r0 put 1.3:0:normal:17:a 1 17.0 a -\n\
        42 r0 eval s1 9 written 17.0\n\
        43 s1 hear 9 42\n\
        44 s1 tell written\n\
        45 s1 ask rollback @19\n\
        46 s1 send 10 r0 abort 1.3:0:normal:17:a client a\n\
        47 r0 eval s1 10 status aborted 0 client a\n\
        48 s1 hear 10 47\n\
        49 s1 tell rolledback 1.3 client\n\
        50 s1 send 11 r0 resolve 1.3 a aborted\n\
        51 r0 eval s1 11 resolved\n\
        52 s1 hear 11 51\n\
        53 s1 send 12 r0 remove 1.3 a\n\
        54 r0 eval s1 12 removed\n\
        55 s1 hear 12 54\n\
        report\n\
        committed 1.1 10.0 a=1,n=2\n\
        committed 1.2 14.0 -\n\
        aborted 1.3 client\n\
        map a=1\n\
        map n=2\n\
        end\n",
};
