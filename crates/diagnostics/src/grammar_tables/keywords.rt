//! For keywords that stand where a name is asked for.

use crate::conditions::Condition::{
    Before, BeforeFunction, BeforeKeyword, Behind, Declaring, Here, HereKeyword, NoneOpen, Opening,
};
use crate::grammar_tables::texts::{EQUALITY, UNCALLED};
use crate::tables::Advice;

const KEYWORD: &str = "`{here}` is a keyword, so it names nothing: `{here}'` is a name";

const KEYWORD_BEFORE: &str = "`{before}` is a keyword, so it names nothing: `{before}'` is a name";

const PROCESS: &str =
    "`{here}` is a process, and here stands none: an equation is called with values, and its parameters are names";

const ROWS: &[Advice] = &[
    Advice {
        when: &[Before("("), Here("STOP")],
        text: PROCESS,
    },
    Advice {
        when: &[Before("("), Here("SKIP")],
        text: PROCESS,
    },
    Advice {
        when: &[Before("channel"), HereKeyword],
        text: KEYWORD,
    },
    Advice {
        when: &[Opening("channel"), Before(","), HereKeyword, NoneOpen],
        text: KEYWORD,
    },
    Advice {
        when: &[Before("datatype"), HereKeyword],
        text: KEYWORD,
    },
    Advice {
        when: &[Declaring("datatype"), Before("="), HereKeyword],
        text: KEYWORD,
    },
    Advice {
        when: &[Before("|"), HereKeyword],
        text: KEYWORD,
    },
    Advice {
        when: &[Before("nametype"), HereKeyword],
        text: KEYWORD,
    },
    Advice {
        when: &[Before(","), Here("STOP")],
        text: PROCESS,
    },
    Advice {
        when: &[Before(","), Here("SKIP")],
        text: PROCESS,
    },
    Advice {
        when: &[Before("?"), HereKeyword],
        text: KEYWORD,
    },
    Advice {
        when: &[Before("{|"), HereKeyword],
        text: KEYWORD,
    },
    Advice {
        when: &[Before("[["), HereKeyword],
        text: KEYWORD,
    },
    Advice {
        when: &[Before("<-"), HereKeyword],
        text: KEYWORD,
    },
    Advice {
        when: &[HereKeyword, Behind("=")],
        text: KEYWORD,
    },
    Advice {
        when: &[HereKeyword, Behind(":")],
        text: KEYWORD,
    },
    Advice {
        when: &[Before("("), HereKeyword, Behind(")")],
        text: KEYWORD,
    },
    Advice {
        when: &[Before("("), HereKeyword, Behind(",")],
        text: KEYWORD,
    },
    Advice {
        when: &[Before(","), HereKeyword, Behind(")")],
        text: KEYWORD,
    },
    Advice {
        when: &[Before(","), HereKeyword, Behind(",")],
        text: KEYWORD,
    },
    Advice {
        when: &[BeforeFunction],
        text: UNCALLED,
    },
    Advice {
        when: &[Before("true"), Here("=")],
        text: EQUALITY,
    },
    Advice {
        when: &[Before("false"), Here("=")],
        text: EQUALITY,
    },
    Advice {
        when: &[BeforeKeyword, Here("=")],
        text: KEYWORD_BEFORE,
    },
    Advice {
        when: &[BeforeKeyword, Here("(")],
        text: KEYWORD_BEFORE,
    },
];

/// The rows.
pub(crate) fn rows() -> &'static [Advice] {
    ROWS
}
