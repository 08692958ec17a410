//! What may stand behind each beginning of a process that is more than an operand.

use crate::follows::{
    ANY_OPERATOR, ATOM, Beginning, CONTROL, DECLARATION, EVENT_SET, EXPRESSION, INFIX, NAMED,
    OPERAND, OPERATOR, UNARY,
};

static PROCESSES: [Beginning; 43] = [
    ("P = if", &[EXPRESSION]),
    ("P = if x", &[ANY_OPERATOR, " then "]),
    ("P = if x == y", &[OPERATOR, " then "]),
    ("P = if x then", &[OPERAND, CONTROL]),
    ("P = if x then STOP", &[INFIX, UNARY, " else "]),
    ("P = if x then a -> STOP", &[INFIX, " else "]),
    ("P = if x then STOP else", &[OPERAND, CONTROL]),
    ("P = if x then STOP else STOP", &[INFIX, UNARY, DECLARATION]),
    ("P = []", &[" x "]),
    ("P = |~|", &[" x "]),
    ("P = |||", &[" x "]),
    ("P = [] y", &[" : "]),
    ("P = [] y :", &[ATOM]),
    ("P = [] y : S", &[" @ "]),
    ("P = [] y : S @", &[OPERAND, CONTROL]),
    ("P = [] y : S @ STOP", &[INFIX, UNARY, DECLARATION]),
    ("P = STOP []", &[OPERAND]),
    ("P = STOP [] STOP", &[" [] ", DECLARATION]),
    ("P = STOP [] Q", &[" [] ", NAMED, ANY_OPERATOR, DECLARATION]),
    ("P = STOP [] STOP []", &[OPERAND]),
    ("P = STOP [] STOP [] STOP", &[" [] ", DECLARATION]),
    ("P = STOP |~|", &[OPERAND]),
    ("P = STOP |~| STOP", &[" |~| ", DECLARATION]),
    ("P = STOP ;", &[OPERAND]),
    ("P = STOP ; STOP", &[" ; ", DECLARATION]),
    ("P = STOP |||", &[OPERAND]),
    ("P = STOP ||| STOP", &[" ||| ", DECLARATION]),
    ("P = STOP /\\", &[OPERAND]),
    ("P = STOP /\\ STOP", &[" /\\ ", DECLARATION]),
    ("P = STOP [> Q", &[" [> ", NAMED, ANY_OPERATOR, DECLARATION]),
    ("P = STOP [> a -> STOP [>", &[OPERAND]),
    ("P = STOP [> a -> STOP [> STOP", &[" [> ", DECLARATION]),
    ("P = STOP [|", &[EVENT_SET]),
    ("P = STOP [| { a }", &[" |] "]),
    ("P = STOP [| { a } |]", &[OPERAND]),
    ("P = STOP [| { a } |] STOP", &[DECLARATION]),
    (
        "P = STOP [| { a } |] Q",
        &[NAMED, ANY_OPERATOR, DECLARATION],
    ),
    ("P = STOP [", &[EVENT_SET]),
    ("P = STOP [ { a }", &[" || "]),
    ("P = STOP [ { a } ||", &[EVENT_SET]),
    ("P = STOP [ { a } || { b }", &[" ] "]),
    ("P = STOP [ { a } || { b } ]", &[OPERAND]),
    ("P = STOP [ { a } || { b } ] STOP", &[DECLARATION]),
];

pub(crate) fn processes() -> &'static [Beginning] {
    &PROCESSES
}

static RENAMINGS_AND_HIDINGS: [Beginning; 35] = [
    ("P = STOP [[", &[" x "]),
    ("P = STOP [[ a", &[" . <- "]),
    ("P = STOP [[ a .", &[ATOM]),
    ("P = STOP [[ a . 1", &[" . <- "]),
    ("P = STOP [[ a <-", &[" x "]),
    ("P = STOP [[ a <- b", &[" . , ]] "]),
    ("P = STOP [[ a <- b .", &[ATOM]),
    ("P = STOP [[ a <- b . 1", &[" . , ]] "]),
    ("P = STOP [[ a <- b ,", &[" x "]),
    ("P = STOP [[ a <- b ]]", &[UNARY, DECLARATION]),
    ("P = STOP [[ a <- b ]] [[ c <- d ]]", &[UNARY, DECLARATION]),
    ("P = STOP [[ a <- b ]] \\", &[EVENT_SET]),
    ("P = STOP [[ a <- b ]] \\ { }", &[" \\ ", DECLARATION]),
    ("P = STOP \\", &[EVENT_SET]),
    ("P = STOP \\ {", &[" x } "]),
    ("P = STOP \\ { }", &[" \\ ", DECLARATION]),
    ("P = STOP \\ { a", &[" . , } "]),
    ("P = STOP \\ { a .", &[ATOM]),
    ("P = STOP \\ { a . 1", &[" . , } "]),
    ("P = STOP \\ { a ,", &[" x "]),
    ("P = STOP \\ { a }", &[" \\ ", DECLARATION]),
    ("P = STOP \\ { a } \\ { b }", &[" \\ ", DECLARATION]),
    ("P = STOP \\ {|", &[" x "]),
    ("P = STOP \\ {| a", &[" . , |} "]),
    ("P = STOP \\ {| a . 1", &[" . , |} "]),
    ("P = STOP \\ {| a ,", &[" x "]),
    ("P = STOP \\ {| a |}", &[" \\ ", DECLARATION]),
    ("P = STOP \\ union", &[" ( "]),
    ("P = STOP \\ inter", &[" ( "]),
    ("P = STOP \\ diff", &[" ( "]),
    ("P = STOP \\ union (", &[EVENT_SET]),
    ("P = STOP \\ union ( { a }", &[" , "]),
    ("P = STOP \\ union ( { a } ,", &[EVENT_SET]),
    ("P = STOP \\ union ( { a } , { b }", &[" ) "]),
    (
        "P = STOP \\ union ( { a } , { b } )",
        &[" \\ ", DECLARATION],
    ),
];

pub(crate) fn renamings_and_hidings() -> &'static [Beginning] {
    &RENAMINGS_AND_HIDINGS
}
