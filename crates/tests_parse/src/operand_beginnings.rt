//! What may stand behind each beginning of an operand, and of what stands in brackets.

use crate::follows::{
    ANY_OPERATOR, ATOM, Beginning, CONTROL, DECLARATION, EXPRESSION, INFIX, NAMED, OPERAND,
    OPERATOR, UNARY,
};

static OPERANDS: [Beginning; 38] = [
    ("P = STOP", &[INFIX, UNARY, DECLARATION]),
    ("P = SKIP", &[INFIX, UNARY, DECLARATION]),
    ("P = Q", &[INFIX, UNARY, NAMED, ANY_OPERATOR, DECLARATION]),
    ("P = Q (", &[EXPRESSION]),
    ("P = Q ( 1", &[ANY_OPERATOR, " , ) "]),
    ("P = Q ( 1 ,", &[EXPRESSION]),
    ("P = Q ( 1 , 2", &[ANY_OPERATOR, " , ) "]),
    ("P = Q ( 1 )", &[INFIX, UNARY, DECLARATION]),
    ("P = a .", &[ATOM]),
    ("P = a . 1", &[" . ! ? -> "]),
    ("P = a !", &[ATOM]),
    ("P = a ! 1", &[" ! ? -> "]),
    ("P = a ! ( x", &[ANY_OPERATOR, " . ) "]),
    ("P = a ! ( x . 1", &[" . ) "]),
    ("P = a ! ( x . 1 )", &[" ! ? -> "]),
    ("P = a ?", &[" x "]),
    ("P = a ? y", &[" ! ? : -> "]),
    ("P = a ? y :", &[ATOM]),
    ("P = a ? y : S", &[" ! ? -> "]),
    ("P = a ->", &[OPERAND]),
    ("P = a -> Q", &[INFIX, NAMED, ANY_OPERATOR, DECLARATION]),
    ("P = a -> STOP", &[INFIX, DECLARATION]),
    ("P = a . 1 -> Q ( 1 )", &[INFIX, DECLARATION]),
    ("P = true", &[ANY_OPERATOR, " & "]),
    ("P = 1 == 2", &[OPERATOR, " & "]),
    ("P = x ==", &[ATOM]),
    ("P = x == y", &[OPERATOR, " & "]),
    ("P = x +", &[ATOM]),
    ("P = x + y", &[ANY_OPERATOR, " & "]),
    ("P = x and", &[EXPRESSION]),
    ("P = x or y", &[ANY_OPERATOR, " & "]),
    ("P = not", &[EXPRESSION]),
    ("P = not x", &[ANY_OPERATOR, " & "]),
    ("P = < x >", &[ANY_OPERATOR, " & "]),
    ("P = true &", &[OPERAND]),
    ("P = true & STOP", &[INFIX, DECLARATION]),
    ("P = x & Q", &[INFIX, NAMED, ANY_OPERATOR, DECLARATION]),
    ("P = x & ( Q )", &[INFIX, ANY_OPERATOR, " & ", DECLARATION]),
];

pub(crate) fn operands() -> &'static [Beginning] {
    &OPERANDS
}

static BRACKETS: [Beginning; 33] = [
    ("P = (", &[OPERAND, CONTROL]),
    ("P = ( STOP", &[INFIX, UNARY, " ) "]),
    ("P = ( STOP )", &[INFIX, UNARY, DECLARATION]),
    ("P = ( x", &[INFIX, UNARY, NAMED, ANY_OPERATOR, " ) "]),
    (
        "P = ( x )",
        &[INFIX, UNARY, ANY_OPERATOR, " & ", DECLARATION],
    ),
    ("P = ( ( x )", &[INFIX, UNARY, ANY_OPERATOR, " & ) "]),
    (
        "P = ( ( x ) )",
        &[INFIX, UNARY, ANY_OPERATOR, " & ", DECLARATION],
    ),
    ("P = ( Q ( 1 )", &[INFIX, UNARY, " ) "]),
    ("P = ( Q ( 1 ) )", &[INFIX, UNARY, DECLARATION]),
    ("P = ( 1", &[ANY_OPERATOR, " & ) "]),
    ("P = ( 1 )", &[ANY_OPERATOR, " & "]),
    ("P = ( ( 1 )", &[ANY_OPERATOR, " & ) "]),
    ("P = ( ( 1 ) )", &[ANY_OPERATOR, " & "]),
    ("P = ( x + 1 )", &[ANY_OPERATOR, " & "]),
    ("P = ( ( x ) + 1 )", &[ANY_OPERATOR, " & "]),
    ("P = ( ( x ) == 1", &[OPERATOR, " & ) "]),
    ("P = ( x & STOP", &[INFIX, " ) "]),
    ("P = ( x & STOP )", &[INFIX, UNARY, DECLARATION]),
    ("P = ( a -> STOP", &[INFIX, " ) "]),
    ("P = ( a -> STOP )", &[INFIX, UNARY, DECLARATION]),
    ("P = ( Q [] R", &[" [] ) ", NAMED, ANY_OPERATOR]),
    ("P = ( Q [] R )", &[INFIX, UNARY, DECLARATION]),
    ("P = ( ( x ) [] STOP", &[" [] ) "]),
    ("P = ( ( x ) [[ a <- b ]]", &[UNARY, " ) "]),
    ("P = ( STOP \\ { }", &[" \\ ) "]),
    ("P = ( x .", &[ATOM]),
    ("P = ( x . 1", &[" . ! ? -> ) "]),
    ("P = ( x . 1 )", &[ANY_OPERATOR, " & "]),
    ("P = ( x . 1 ! 2", &[" ! ? -> "]),
    ("P = ( x . 1 -> STOP", &[INFIX, " ) "]),
    ("P = Q ( ( x . 1", &[" . ) "]),
    ("P = STOP [>", &[OPERAND]),
    ("P = STOP [> STOP", &[" [> ", DECLARATION]),
];

pub(crate) fn brackets() -> &'static [Beginning] {
    &BRACKETS
}
