//! Declarations and their trees.

use crate::rows::{ALONE, Row, Subject};

const DECLARATIONS: &[Row] = &[
    ("", ""),
    ("datatype D = A", "datatype D@1:10 A@1:14; "),
    ("datatype D = A | B'", "datatype D@1:10 A@1:14 B'@1:18; "),
    (
        "datatype D = A.Bool | B",
        "datatype D@1:10 A@1:14 of 1:16 Bool B@1:23; ",
    ),
    (
        "datatype D = A | B.{0..1}.(E) channel c : D",
        "datatype D@1:10 A@1:14 B@1:18 of 1:20 {0 .. 1} of 1:27 E; channel c@1:39 : 1:43 D; ",
    ),
    (
        "datatype D = B.C.{(E.1)}.(2) P = STOP",
        "datatype D@1:10 B@1:14 of 1:16 C of 1:18 {(E of 1)} of 1:26 2; P@1:30 = STOP; ",
    ),
    ("nametype N = {0..1}", "nametype N@1:10 1:14 {0 .. 1}; "),
    ("nametype N = N or M", "nametype N@1:10 1:14 (N or M); "),
    ("channel c", "channel c@1:9; "),
    (
        "channel c, d\nchannel e",
        "channel c@1:9 d@1:12; channel e@2:9; ",
    ),
    (
        "channel c : {0..1}.Bool.(N)",
        "channel c@1:9 : 1:13 {0 .. 1} 1:20 Bool 1:25 N; ",
    ),
    ("P = STOP", "P@1:1 = STOP; "),
    (
        "P(x) = STOP Q(y,z) = SKIP",
        "P@1:1 x@1:3 = STOP; Q@1:13 y@1:15 z@1:17 = SKIP; ",
    ),
    ("assert STOP [T= SKIP", "assert 1:1 STOP traces SKIP; "),
    (
        " assert P [F= Q \\ {}",
        "assert 1:2 P() failures (Q() hide {}); ",
    ),
    ("P = Q R = S", "P@1:1 = Q(); R@1:7 = S(); "),
    ("P = x & y", "P@1:1 = (x & y()); "),
    (
        "assert (not not b & P) [T= Q",
        "assert 1:1 ((not (not b)) & P()) traces Q(); ",
    ),
    // The first `not` behind the keyword negates, and each further one is the guard's.
    ("assert not P [T= Q", "assert 1:1 not: P() traces Q(); "),
    (
        "assert not b & P [F= Q",
        "assert 1:1 not: (b & P()) failures Q(); ",
    ),
    (
        "assert not not b & P [T= Q",
        "assert 1:1 not: ((not b) & P()) traces Q(); ",
    ),
    (
        "assert P [T= not b & Q",
        "assert 1:1 P() traces ((not b) & Q()); ",
    ),
    (
        "assert not (not b & P) [T= Q",
        "assert 1:1 not: ((not b) & P()) traces Q(); ",
    ),
    (
        "assert not if b then P else Q [T= P",
        "assert 1:1 not: (if b then P() else Q()) traces P(); ",
    ),
    // Freedom of deadlock, as it may be written.
    (
        "assert P :[deadlock free]",
        "assert 1:1 P() never deadlocks; ",
    ),
    (
        "assert P :[deadlock free [F]]",
        "assert 1:1 P() never deadlocks; ",
    ),
    (
        "assert P :[deadlock free [F ] ]",
        "assert 1:1 P() never deadlocks; ",
    ),
    (
        "assert P : [ deadlock free [ F ]]",
        "assert 1:1 P() never deadlocks; ",
    ),
    (
        "assert not P:[deadlock free[F]]assert Q:[deadlock free]",
        "assert 1:1 not: P() never deadlocks; assert 1:32 Q() never deadlocks; ",
    ),
    (
        "assert P :[divergence free]",
        "assert 1:1 P() never diverges; ",
    ),
    (
        "assert not not b & P :[divergence free]",
        "assert 1:1 not: ((not b) & P()) never diverges; ",
    ),
    (
        "assert P [{a} || {b}] Q :[deadlock free] P = Q",
        "assert 1:1 (P() [{a} || {b}] Q()) never deadlocks; P@1:42 = Q(); ",
    ),
    // The words of freedom are names elsewhere.
    (
        "deadlock = free divergence(F) = free assert deadlock :[deadlock free]",
        "deadlock@1:1 = free(); divergence@1:17 F@1:28 = free(); assert 1:38 deadlock() never deadlocks; ",
    ),
    (
        "datatype deadlock = free | F.divergence channel divergence, free : deadlock",
        "datatype deadlock@1:10 free@1:21 F@1:28 of 1:30 divergence; channel divergence@1:49 free@1:61 : 1:68 deadlock; ",
    ),
];

static SUBJECT: Subject = ("declarations", ALONE, DECLARATIONS);

pub(crate) fn subject() -> &'static Subject {
    &SUBJECT
}
