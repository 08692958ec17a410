//! What stands where it may not, of a prefix, a guard and an operand.

use crate::rows::{ALONE, Row, Subject};

const OUT_OF_PLACE: &[Row] = &[
    ("P = a -> Q \\ {a}", "S04 at 1:12"),
    ("P = a -> Q[[a <- b]]", "S04 at 1:11"),
    ("P = a -> STOP \\ {a}", "S04 at 1:15"),
    ("P = a -> (Q) \\ {a}", "S04 at 1:14"),
    ("P = a!1 -> Q(1)[[a <- b]]", "S04 at 1:16"),
    ("P = a -> b -> Q \\ {a}", "S04 at 1:17"),
    ("P = x & Q \\ {a}", "S04 at 1:11"),
    ("P = x & Q[[a <- b]]", "S04 at 1:10"),
    ("P = x & STOP \\ {a}", "S04 at 1:14"),
    ("P = x & (Q)[[a <- b]]", "S04 at 1:12"),
    ("P = 1 == 1 & SKIP[[a <- b]]", "S04 at 1:18"),
    ("P = Q [] (R) \\ {a}", "S04 at 1:14"),
    ("P = Q [] STOP[[a <- b]]", "S04 at 1:14"),
    ("P = Q ; a -> R \\ {a}", "S04 at 1:16"),
    ("P = Q [> R \\ {a}", "S04 at 1:12"),
    ("P = Q [> a -> R[[a <- b]]", "S04 at 1:16"),
    ("P = Q ||| x & R[[a <- b]]", "S04 at 1:16"),
    ("P = (a -> Q \\ {a})", "S04 at 1:13"),
    ("P = (x & Q[[a <- b]])", "S04 at 1:11"),
    ("P = Q \\ {a}[[a <- b]]", "S04 at 1:12"),
    ("P = Q[[a <- b]] \\ {a}[[a <- b]]", "S04 at 1:22"),
    ("P = a -> if x then Q else R", "S01 at 1:10"),
    ("P = Q [| {a} |] if x then Q else R", "S01 at 1:17"),
    ("P = Q ; |~| x:S @ R", "S04 at 1:9"),
    ("P = a -> ||| x:S @ R", "S04 at 1:10"),
    ("P = x & [] y:S @ R", "S04 at 1:9"),
];

static SUBJECT: Subject = ("out of place", ALONE, OUT_OF_PLACE);

pub(crate) fn subject() -> &'static Subject {
    &SUBJECT
}
