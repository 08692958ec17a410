//! Runs that are refused memory.

use crate::runs::{Told, run_in};
use program::OneText;
use refusing_memory::RefusesOnce;
use std::alloc::Global;
use std::sync::Wait;
use std::test::Fail;
use std::thread::Threads;

const TEXT: &str = "channel a\nassert a -> STOP [T= STOP\nassert STOP [T= a -> STOP\n";

const HOLDS: &str = "1 holds  assert a -> STOP [T= STOP\n";

const COUNTED: &str = "1 holds  assert a -> STOP [T= STOP\n  1 pair, 2 nodes\n";

const FIRST_UNKNOWN: &str = "1 unknown  assert a -> STOP [T= STOP\n  memory was refused\n";

const FAILS: &str = "\
2 fails  assert STOP [T= a -> STOP
  0 start
      a -> STOP
      specification: STOP
  then it does a, and the specification cannot
  there the specification can do no more than {}
";

const SECOND_UNKNOWN: &str = "2 unknown  assert STOP [T= a -> STOP\n  memory was refused\n";

// Whether it is the first text with the second behind it.
fn is_joined(out: &[u8], first: &str, second: &str) -> bool {
    match out.strip_prefix(first.as_bytes()) {
        Some(rest) => rest == second.as_bytes(),
        None => false,
    }
}

// Whether all is told, but for one answer that is unknown.
fn is_without_one(told: &Told) -> bool {
    let is = is_joined(&told.out, FIRST_UNKNOWN, FAILS)
        || is_joined(&told.out, HOLDS, SECOND_UNKNOWN);
    told.status == 2 && told.err.is_empty() && is
}

// Whether memory was refused, with the explanations before that.
fn is_broken_off(told: &Told) -> bool {
    told.is(3, "", "refused memory\n") || told.is(3, HOLDS, "refused memory\n")
}

// Whether all is told.
fn is_whole(told: &Told) -> bool {
    told.status == 1 && told.err.is_empty() && is_joined(&told.out, HOLDS, FAILS)
}

// What a run on the words and the text tells where the request of that number is refused, and whether it was made.
fn told_without<'w, R: Threads + Wait + Sync>(
    alloc: Global,
    rt: &R,
    words: &'w [&'w str],
    text: &str,
    request: u64,
) -> (Told, bool) {
    let memory = RefusesOnce::new(alloc, request);
    let mut files = OneText {
        name: "script",
        text: text.as_bytes(),
        alloc: &memory,
    };
    let told = run_in(alloc, &memory, rt, words, &mut files);
    let refused = memory.has_refused();
    (told, refused)
}

#[test]
fn refused_memory_leaves_what_was_told(rt: HostRuntime) -> Result<(), Fail> {
    let (mut without, mut broken) = (0u32, 0u32);
    for request in 0..100_000 {
        let (told, refused) = told_without(rt.alloc(), &rt, &["script"], TEXT, request);
        if !refused {
            assert!(rt;
                is_whole(&told) && without > 4 && broken > 4,
                "before {request}"
            );
            return Ok(());
        }
        if is_broken_off(&told) {
            broken = broken.saturating_add(1);
        } else if is_without_one(&told) {
            without = without.saturating_add(1);
        } else {
            assert!(rt; is_whole(&told), "without {request}");
        }
    }
    assert!(rt; false, "no end");
    Ok(())
}

// A search that is refused memory has no count.
#[test]
fn refused_memory_leaves_no_count(rt: HostRuntime) -> Result<(), Fail> {
    let (mut without, mut broken) = (0u32, 0u32);
    let words = &["--count", "script", "1"];
    for request in 0..100_000 {
        let (told, refused) = told_without(rt.alloc(), &rt, words, TEXT, request);
        if !refused {
            assert!(rt;
                told.is(0, COUNTED, "") && without > 4 && broken > 4,
                "before {request}"
            );
            return Ok(());
        }
        if told.is(3, "", "refused memory\n") {
            broken = broken.saturating_add(1);
        } else if told.is(2, FIRST_UNKNOWN, "") {
            without = without.saturating_add(1);
        } else {
            assert!(rt; told.is(0, COUNTED, ""), "without {request}");
        }
    }
    assert!(rt; false, "no end");
    Ok(())
}

const REFUSED: &str = "channel a, a\n";

const IN_WORDS: &str = r"script:1:12: K02: this name is declared already
    channel a, a
               ^
note: `a` is the channel declared at 1:9, with 0 fields
help: datatypes, constructors, nametypes, channels and equations share one space of names, a bound name is none of them, and a head names each parameter once: rename one of the two
";

// Where there is no memory for the words, the refusal has its line.
#[test]
fn a_refusal_without_memory_is_told_by_its_line(rt: HostRuntime) -> Result<(), Fail> {
    let (mut unread, mut lines) = (0u32, 0u32);
    for request in 0..100_000 {
        let (told, refused) = told_without(rt.alloc(), &rt, &["script"], REFUSED, request);
        if !refused {
            assert!(rt;
                told.is(3, "", IN_WORDS) && unread > 4 && lines > 4,
                "before {request}"
            );
            return Ok(());
        }
        if told.is(3, "", "refused memory\n") {
            unread = unread.saturating_add(1);
        } else if told.is(3, "", "refused K02 at 1:12\n") {
            lines = lines.saturating_add(1);
        } else {
            assert!(rt; told.is(3, "", IN_WORDS), "without {request}");
        }
    }
    assert!(rt; false, "no end");
    Ok(())
}
