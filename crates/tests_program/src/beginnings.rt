//! Beginnings of the script of the chain of two copiers, and what they are answered with. What is expected comes from the
//! rules of the grammar and of names.

use crate::outcomes::CHAIN;
use crate::runs::{Told, check};
use csp_lex::tokens;
use std::alloc::{AllocError, Global};
use std::process::Abort;
use std::sync::Wait;
use std::test::Fail;
use std::thread::Threads;

// What a beginning is answered with.
#[derive(Clone, Copy)]
enum Answer {
    // It is the beginning of a script, and none: the refusal stands at its end.
    Ends,
    // It has this refusal.
    Refused(&'static str),
    // It is a script with this status and report.
    Lines(u8, &'static str),
}

// The answer to beginnings of so many bytes, up to the number of the next row.
static ANSWERS: [(usize, Answer); 64] = [
    (0, Answer::Lines(0, "")),
    (1, Answer::Ends),
    (9, Answer::Lines(0, "")),
    (11, Answer::Ends),
    (13, Answer::Lines(0, "")),
    (16, Answer::Ends),
    (18, Answer::Lines(0, "")),
    (22, Answer::Ends),
    (26, Answer::Refused("refused S01 at 1:26\n")),
    (27, Answer::Ends),
    (29, Answer::Lines(0, "")),
    (31, Answer::Ends),
    (39, Answer::Refused("refused K01 at 2:9\n")),
    (40, Answer::Refused("refused K03 at 2:9\n")),
    (41, Answer::Ends),
    (44, Answer::Refused("refused S01 at 2:14\n")),
    (45, Answer::Ends),
    (47, Answer::Refused("refused K01 at 2:17\n")),
    (49, Answer::Refused("refused K03 at 2:17\n")),
    (50, Answer::Ends),
    (53, Answer::Refused("refused S01 at 2:23\n")),
    (54, Answer::Ends),
    (56, Answer::Refused("refused K01 at 2:26\n")),
    (60, Answer::Lines(0, "")),
    (62, Answer::Ends),
    (70, Answer::Refused("refused K01 at 3:9\n")),
    (72, Answer::Refused("refused K03 at 3:9\n")),
    (73, Answer::Ends),
    (76, Answer::Refused("refused S01 at 3:15\n")),
    (77, Answer::Ends),
    (79, Answer::Refused("refused K01 at 3:18\n")),
    (81, Answer::Refused("refused K03 at 3:18\n")),
    (82, Answer::Ends),
    (85, Answer::Refused("refused S01 at 3:24\n")),
    (86, Answer::Ends),
    (88, Answer::Refused("refused K01 at 3:27\n")),
    (92, Answer::Lines(0, "")),
    (94, Answer::Ends),
    (119, Answer::Refused("refused S01 at 4:26\n")),
    (120, Answer::Ends),
    (122, Answer::Refused("refused S01 at 4:29\n")),
    (123, Answer::Ends),
    (130, Answer::Lines(0, "")),
    (132, Answer::Ends),
    (141, Answer::Refused("refused S01 at 4:48\n")),
    (142, Answer::Lines(0, "")),
    (144, Answer::Ends),
    (170, Answer::Refused("refused S01 at 5:27\n")),
    (171, Answer::Ends),
    (185, Answer::Lines(0, "")),
    (187, Answer::Ends),
    (212, Answer::Refused("refused S01 at 5:69\n")),
    (213, Answer::Ends),
    (229, Answer::Lines(0, "")),
    (231, Answer::Ends),
    (249, Answer::Refused("refused S01 at 6:19\n")),
    (250, Answer::Ends),
    (252, Answer::Refused("refused K01 at 6:22\n")),
    (256, Answer::Lines(0, "1 holds\n")),
    (258, Answer::Ends),
    (276, Answer::Refused("refused S01 at 7:19\n")),
    (277, Answer::Ends),
    (279, Answer::Refused("refused K01 at 7:22\n")),
    (
        283,
        Answer::Lines(1, "1 holds\n2 fails trace <in.0> event in.0\n"),
    ),
];

fn answer_to(length: usize) -> Answer {
    let mut answer = Answer::Ends;
    for (from, next) in &ANSWERS {
        if *from <= length {
            answer = *next;
        }
    }
    answer
}

// The line of a refusal behind the last character of a text, of which each has one byte.
fn refused_at_end(alloc: Global, text: &[u8]) -> Result<String, AllocError> {
    let (mut line, mut column) = (1u32, 1u32);
    for byte in text {
        if *byte == b'\n' {
            line = line.saturating_add(1);
            column = 1;
        } else {
            column = column.saturating_add(1);
        }
    }
    format!(in alloc; "refused S03 at {line}:{column}\n")
}

fn is_answered(
    alloc: Global,
    told: &Told,
    text: &[u8],
    answer: Answer,
) -> Result<bool, AllocError> {
    match answer {
        Answer::Ends => Ok(told.is_refused(refused_at_end(alloc, text)?.as_str())),
        Answer::Refused(line) => Ok(told.is_refused(line)),
        Answer::Lines(status, report) => Ok(told.is(status, report, "")),
    }
}

fn each_is_answered_so<R: Abort + Threads + Wait + Sync>(
    rt: &R,
    alloc: Global,
    whole: &[u8],
) -> Result<(), Fail> {
    for length in 0..=whole.len() {
        let text = &whole[..length];
        let told = check(alloc, rt, text);
        let is_so = is_answered(alloc, &told, text, answer_to(length))?;
        assert!(rt; is_so, "at {length}");
    }
    Ok(())
}

#[test]
fn each_beginning_is_answered_so(rt: HostRuntime) -> Result<(), Fail> {
    each_is_answered_so(&rt, rt.alloc(), CHAIN.0.as_bytes())
}

// Whether the grammar refuses a token of the text, and not only its end.
fn has_refused_token(told: &Told) -> bool {
    let line = told.err.as_slice();
    line.starts_with(b"refused S01")
        || line.starts_with(b"refused S02")
        || line.starts_with(b"refused S04")
}

// A text that is cut behind a token of a script has no token that the grammar refuses.
fn no_token_is_refused<R: Abort + Threads + Wait + Sync>(
    rt: &R,
    alloc: Global,
    whole: &[u8],
) -> Result<(), Fail> {
    let list = tokens(alloc, whole)?;
    for token in &list.tokens {
        let text = whole.get(..token.to).ok_or("a beginning")?;
        let told = check(alloc, rt, text);
        assert!(rt; !has_refused_token(&told), "behind {}", token.to);
    }
    assert_eq!(rt; list.tokens.len(), 121);
    Ok(())
}

#[test]
fn no_token_is_refused_in_what_is_cut_behind_it(rt: HostRuntime) -> Result<(), Fail> {
    no_token_is_refused(&rt, rt.alloc(), CHAIN.0.as_bytes())
}
