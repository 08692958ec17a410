//! Processes and their trees.

use crate::rows::{Row, Subject, Surroundings};

const AROUND: &[Surroundings] = &[
    ("P = ", "", "P@1:1 = ", "; "),
    ("P = (", ")", "P@1:1 = ", "; "),
    ("assert (", ") [T= Q", "assert 1:1 ", " traces Q(); "),
    ("assert not ", " [T= Q", "assert 1:1 not: ", " traces Q(); "),
    ("assert P [F= ", "", "assert 1:1 P() failures ", "; "),
];

const PROCESSES: &[Row] = &[
    ("STOP", "STOP"),
    ("SKIP", "SKIP"),
    ("Q", "Q()"),
    ("Q(1)", "Q(1)"),
    ("Q(x,y or z)", "Q(x,(y or z))"),
    ("(STOP)", "STOP"),
    ("((x))", "x()"),
    ("(((x)))", "x()"),
    ("(P) & Q", "(P & Q())"),
    ("((x)) & P", "(x & P())"),
    ("((x))[[a <- b]]", "(x() rename a<-b)"),
    ("((x)) [| {} |] P", "(x() [| {} |] P())"),
    ("((x)) + 1 == y & P", "(((x + 1) == y) & P())"),
    ("((x+1)) * 2 == y & P", "((((x + 1) * 2) == y) & P())"),
    ("((x) [] P)", "(x() [] P())"),
    ("a -> ((x)) & P", "(a -> (x & P()))"),
    ("P [] ((x)) & Q", "(P() [] (x & Q()))"),
    ("((x)) [] P", "(x() [] P())"),
    ("((x)) \\ {a}", "(x() hide {a})"),
    ("((x+1)) & P", "((x + 1) & P())"),
    ("(x + 1) == y & P", "(((x + 1) == y) & P())"),
    ("((x) == y) & P", "((x == y) & P())"),
    ("((x == y) & P)", "((x == y) & P())"),
    ("(x & P) [] Q", "((x & P()) [] Q())"),
    ("a -> STOP", "(a -> STOP)"),
    (
        "a.1.x!2!(y)?z?w:{0..1}!3 -> STOP",
        "(a.1.x.2.y?z?w:{0 .. 1}.3 -> STOP)",
    ),
    (
        "a?x:S -> x == 1 & b!x -> Q(x)",
        "(a?x:S -> ((x == 1) & (b.x -> Q(x))))",
    ),
    ("not b & STOP", "((not b) & STOP)"),
    ("<x> == s & P", "((<x> == s) & P())"),
    ("#s > 0 & P", "(((# s) > 0) & P())"),
    ("if x then P else Q", "(if x then P() else Q())"),
    (
        "if x then if y then P else Q else R [] S",
        "(if x then (if y then P() else Q()) else (R() [] S()))",
    ),
    ("[] x:{0..1} @ c!x -> P", "([] x:{0 .. 1} @ (c.x -> P()))"),
    ("|~| x:S @ P [] Q", "(|~| x:S @ (P() [] Q()))"),
    ("||| x:S @ ||| y:T @ P", "(||| x:S @ (||| y:T @ P()))"),
    ("P [] Q [] R", "((P() [] Q()) [] R())"),
    ("P |~| Q |~| R |~| S", "(((P() |~| Q()) |~| R()) |~| S())"),
    ("P ; Q ; R", "((P() ; Q()) ; R())"),
    ("P ||| Q ||| R", "((P() ||| Q()) ||| R())"),
    ("P /\\ Q /\\ R", "((P() /\\ Q()) /\\ R())"),
    ("P [> Q [> R", "((P() [> Q()) [> R())"),
    ("P[>Q[>R[>S", "(((P() [> Q()) [> R()) [> S())"),
    ("P [> (Q [> R)", "(P() [> (Q() [> R()))"),
    ("P [> (Q [] R)", "(P() [> (Q() [] R()))"),
    ("a -> P [> x & Q", "((a -> P()) [> (x & Q()))"),
    ("(P [> Q) \\ {a}", "((P() [> Q()) hide {a})"),
    ("(c.1 -> P)", "(c.1 -> P())"),
    ("(c.1.x?y -> P)", "(c.1.x?y -> P())"),
    ("(B.1) == x & P", "(((B of 1) == x) & P())"),
    ("((B.1)) == x & P", "(((B of 1) == x) & P())"),
    ("c!(B.1) -> P", "(c.(B of 1) -> P())"),
    ("c.(B.1)!2 -> P", "(c.(B of 1).2 -> P())"),
    (
        "c!(B.(C.1)) -> c?x:{(B.2)} -> P",
        "(c.(B of (C of 1)) -> (c?x:{(B of 2)} -> P()))",
    ),
    ("free!F -> deadlock", "(free.F -> deadlock())"),
    ("divergence(free,F)", "divergence(free,F)"),
    ("P [] (Q |~| R)", "(P() [] (Q() |~| R()))"),
    ("a -> P [] b -> Q", "((a -> P()) [] (b -> Q()))"),
    ("P [| {a, b.1} |] Q", "(P() [| {a,b.1} |] Q())"),
    (
        "P [| {| a, b.1 |} |] a -> Q",
        "(P() [| {|a,b.1|} |] (a -> Q()))",
    ),
    (
        "P [union({a},{}) || inter({|b|},diff({c},{d}))] Q",
        "(P() [({a} union {}) || ({|b|} inter ({c} diff {d}))] Q())",
    ),
    (
        "if x then P else Q \\ {a}",
        "(if x then P() else (Q() hide {a}))",
    ),
    ("[] x:S @ P[[a <- b]]", "([] x:S @ (P() rename a<-b))"),
    ("P \\ {a} \\ {}", "((P() hide {a}) hide {})"),
    ("P[[a <- b]]", "(P() rename a<-b)"),
    (
        "P[[a.1 <- b.2, c <- d]][[b <- a]]",
        "((P() rename a.1<-b.2,c<-d) rename b<-a)",
    ),
    ("P[[a <- b]] \\ {b}", "((P() rename a<-b) hide {b})"),
    ("(a -> P) \\ {a}", "((a -> P()) hide {a})"),
    (
        "(if x then P else Q)[[a <- b]]",
        "((if x then P() else Q()) rename a<-b)",
    ),
    ("([] x:S @ P) ; Q", "(([] x:S @ P()) ; Q())"),
];

static SUBJECT: Subject = ("processes", AROUND, PROCESSES);

pub(crate) fn subject() -> &'static Subject {
    &SUBJECT
}
