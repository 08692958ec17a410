//! What is so around a place of a text, and what the first row of a table says of it.

use csp_lex::{Place, tokens};
use diagnostics::Condition::{
    Before, BeforeFunction, BeforeKeyword, BeforeName, BeforeNumber, Behind, Declaring, Earlier,
    Here, HereKeyword, HereName, HereNumber, NoneOpen, Open, Opening, Outside,
};
use diagnostics::{Advice, Condition, first_advice, surroundings_at};
use std::test::Fail;

/// The place of the `+`, where the brackets round `n` are closed.
const TEXT: &str = "channel c : {0..2}\nP(n) = c!(head(n) + 1) -> STOP";

const PLUS: Place = Place {
    line: 2,
    column: 19,
};

/// What is so at the `+`.
static MET: [&[Condition]; 10] = [
    &[],
    &[Opening("=")],
    &[Declaring("n")],
    &[Open("(")],
    &[Outside("!")],
    &[Earlier("n")],
    &[Before(")")],
    &[Here("+")],
    &[Behind("1")],
    &[Opening("="), Open("("), Here("+"), Behind("1")],
];

/// What is not so there.
static UNMET: [&[Condition]; 14] = [
    &[Opening("channel")],
    &[Declaring("nametype")],
    &[Open("{")],
    &[Outside("(")],
    &[NoneOpen],
    &[Before("n")],
    &[BeforeName],
    &[BeforeNumber],
    &[BeforeKeyword],
    &[BeforeFunction],
    &[HereName],
    &[HereNumber],
    &[HereKeyword],
    &[Here("+"), Behind("+")],
];

/// What is so at the first token, at the last one, and behind it.
static MET_ELSEWHERE: [(u32, u32, &[Condition]); 8] = [
    (1, 1, &[NoneOpen, Here("channel"), HereKeyword]),
    (1, 9, &[Opening("channel"), BeforeKeyword, HereName]),
    (1, 14, &[Open("{"), Earlier(":"), HereNumber]),
    (1, 15, &[Open("{"), BeforeNumber, Here("..")]),
    (2, 3, &[Open("("), Outside("P"), Here("n")]),
    (2, 15, &[Before("head"), BeforeFunction, Behind("n")]),
    (2, 27, &[NoneOpen, Before("->"), Here("STOP")]),
    (2, 31, &[NoneOpen, Earlier("->"), Before("STOP")]),
];

#[test]
fn conditions_are_met_so(rt: HostRuntime) -> Result<(), Fail> {
    let list = tokens(rt.alloc(), TEXT.as_bytes())?;
    let around = surroundings_at(rt.alloc(), &list.tokens, PLUS)?;
    for when in &MET {
        let met = first_advice(&[Advice { when, text: "met" }], &around);
        assert!(rt; met == Some("met"));
    }
    for when in &UNMET {
        let met = first_advice(&[Advice { when, text: "met" }], &around);
        assert!(rt; met.is_none());
    }
    Ok(())
}

#[test]
fn conditions_are_met_elsewhere(rt: HostRuntime) -> Result<(), Fail> {
    let list = tokens(rt.alloc(), TEXT.as_bytes())?;
    for (line, column, when) in &MET_ELSEWHERE {
        let place = Place {
            line: *line,
            column: *column,
        };
        let around = surroundings_at(rt.alloc(), &list.tokens, place)?;
        let met = first_advice(&[Advice { when, text: "met" }], &around);
        assert!(rt; met == Some("met"), "at {line}:{column}");
    }
    Ok(())
}

#[test]
fn the_first_row_that_applies_counts(rt: HostRuntime) -> Result<(), Fail> {
    let list = tokens(rt.alloc(), TEXT.as_bytes())?;
    let around = surroundings_at(rt.alloc(), &list.tokens, PLUS)?;
    let table = [
        Advice {
            when: &[Here("-")],
            text: "minus",
        },
        Advice {
            when: &[Here("+")],
            text: "plus",
        },
        Advice {
            when: &[],
            text: "any",
        },
    ];
    assert!(rt; first_advice(&table, &around) == Some("plus"));
    assert!(rt; first_advice(&[], &around).is_none());
    Ok(())
}
