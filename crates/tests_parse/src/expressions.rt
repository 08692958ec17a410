//! Expressions and their trees.

use crate::rows::{Row, Subject, Surroundings};

const AROUND: &[Surroundings] = &[
    ("nametype N = ", "", "nametype N@1:10 1:14 ", "; "),
    ("P = ", " & STOP", "P@1:1 = (", " & STOP); "),
    ("P = (", ") & STOP", "P@1:1 = (", " & STOP); "),
    ("P = ((", ")) & STOP", "P@1:1 = (", " & STOP); "),
    ("P = Q(", ",1)", "P@1:1 = Q(", ",1); "),
];

const EXPRESSIONS: &[Row] = &[
    ("1", "1"),
    ("x", "x"),
    ("true or false", "(true or false)"),
    ("Bool", "Bool"),
    ("- 1", "(neg 1)"),
    ("- - x", "(neg (neg x))"),
    ("#<>", "(# <>)"),
    ("(x)", "x"),
    ("(x.1)", "(x of 1)"),
    ("(x.1.(y))", "(x of 1,y)"),
    ("(x.(y.-1).<z>) + 2", "((x of (y of (neg 1)),<z>) + 2)"),
    ("{(x.y)}", "{(x of y)}"),
    ("head((x.1))", "(head (x of 1))"),
    ("< 1 >", "<1>"),
    ("<1+1,x>", "<(1 + 1),x>"),
    ("<(x > y)>", "<(x > y)>"),
    ("{}", "{}"),
    ("{x}", "{x}"),
    ("{x or y,1}", "{(x or y),1}"),
    ("{x+1..#y}", "{(x + 1) .. (# y)}"),
    ("head(x)", "(head x)"),
    ("tail(x)", "(tail x)"),
    ("null(x)", "(null x)"),
    ("card(x)", "(card x)"),
    ("elem(x,y)", "(x elem y)"),
    ("member(x,y)", "(x member y)"),
    ("union(x,y)", "(x union y)"),
    ("inter(x,y)", "(x inter y)"),
    ("diff(x,y)", "(x diff y)"),
    ("1+2-3^4", "(((1 + 2) - 3) ^ 4)"),
    ("1-2-3", "((1 - 2) - 3)"),
    ("1+2+3", "((1 + 2) + 3)"),
    ("x^y^z", "((x ^ y) ^ z)"),
    ("1*2*3", "((1 * 2) * 3)"),
    ("1%2%3", "((1 % 2) % 3)"),
    ("-1+-2", "((neg 1) + (neg 2))"),
    ("-#x*2", "((neg (# x)) * 2)"),
    ("false", "false"),
    ("1*2%3*4", "(((1 * 2) % 3) * 4)"),
    ("1+2*3-4*5", "((1 + (2 * 3)) - (4 * 5))"),
    ("x == 1+1", "(x == (1 + 1))"),
    ("x != y", "(x != y)"),
    ("x < y", "(x < y)"),
    ("x <= y", "(x <= y)"),
    ("x > y", "(x > y)"),
    ("x >= y", "(x >= y)"),
    ("not not x == y", "(not (not (x == y)))"),
    ("x and y and z", "((x and y) and z)"),
    ("x or y or z", "((x or y) or z)"),
    (
        "x or not y and z == 1 or b",
        "((x or ((not y) and (z == 1))) or b)",
    ),
    ("(x or y) and z", "((x or y) and z)"),
];

static SUBJECT: Subject = ("expressions", AROUND, EXPRESSIONS);

pub(crate) fn subject() -> &'static Subject {
    &SUBJECT
}
