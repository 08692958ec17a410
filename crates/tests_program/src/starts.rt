//! What comes of the words that a program is started with.

ghost use Rattle.std.specs.Prelude.{◌≡◌, false};

use crate::runs::Told;
use program::{Unread, command_words, start};
use refusing_memory::RefusesOnce;
use report::{Buffer, Sink, push_all, push_each};
use std::alloc::{Allocator, Global};
use std::env::{Env, FillError};
use std::test::Fail;

// A machine with these words.
#[derive(Clone, Copy, Drop)]
struct Machine(&'static [&'static [u8]]);

impl Env for Machine {
    fn arg(&self, i: usize, room: &mut [u8]) -> Result<usize, FillError> {
        let Some(word) = self.0.get(i) else {
            return Err(FillError::NotPresent);
        };
        if room.len() < word.len() {
            return Err(FillError::TooLong);
        }
        room[..word.len()].copy_from_slice(word);
        Ok(word.len())
    }

    fn var(&self, _name: &str, _room: &mut [u8]) -> Result<usize, FillError> {
        Err(FillError::NotPresent)
    }

    fn var_at(&self, _i: usize, _room: &mut [u8]) -> Result<usize, FillError> {
        Err(FillError::NotPresent)
    }
}

// A program that gives its words to one output and a mark to the other, and answers how many words there are.
fn say<O: Sink, E: Sink>(words: &[&str], out: &mut O, err: &mut E) -> u8
    requires out { O.has_failed out.old ≡ false }
    requires err { E.has_failed err.old ≡ false }
{
    let _ = push_each(words, out);
    let _ = push_all(b"said\n", err);
    u8::try_from(words.len()).unwrap_or(u8::MAX)
}

fn started<A: Allocator + Copy>(
    room: Global,
    alloc: A,
    words: Result<Vec<String<A>, A>, Unread>,
) -> Told {
    let (mut out, mut err) = (Buffer::new(room), Buffer::new(room));
    let status = start(alloc, words, &mut out, &mut err, |words, out, err| {
        say(words, out, err)
    });
    Told {
        status,
        out: out.bytes,
        err: err.bytes,
    }
}

// The words of a machine, the status, and what is given to the two outputs.
static STARTS: [(&[&[u8]], u8, &str, &str); 7] = [
    (&[], 0, "", "said\n"),
    (&[b"refcheck"], 0, "", "said\n"),
    (&[b"refcheck", b"script"], 1, "script", "said\n"),
    (
        &[b"refcheck", b"--workers=2", b"script"],
        2,
        "--workers=2script",
        "said\n",
    ),
    (&[b"refcheck", b"a", b"", b"c"], 3, "ac", "said\n"),
    (&[b"refcheck", b"script", b"\xff"], 3, "", "refused file\n"),
    (&[b"\xff", b"script"], 3, "", "refused file\n"),
];

#[test]
fn programs_are_started_so(rt: HostRuntime) -> Result<(), Fail> {
    for (machine, status, out, err) in &STARTS {
        let words = command_words(&(Machine(machine), rt.alloc()));
        let told = started(rt.alloc(), rt.alloc(), words);
        assert!(rt; told.is(*status, out, err), "at {machine:?}");
    }
    Ok(())
}

// A request that is refused may be made again, and is granted then.
#[test]
fn words_without_memory_are_refused(rt: HostRuntime) -> Result<(), Fail> {
    let mut refused = 0u32;
    for request in 0..100 {
        let memory = RefusesOnce::new(rt.alloc(), request);
        let words = command_words(&(Machine(&[b"refcheck", b"a", b"b"]), &memory));
        let told = started(rt.alloc(), &memory, words);
        let is_run = told.is(2, "ab", "said\n");
        if !memory.has_refused() {
            assert!(rt; is_run && refused > 4, "without {refused}");
            return Ok(());
        }
        assert!(rt;
            is_run || told.is_refused("refused memory\n"),
            "without {request}"
        );
        if !is_run {
            refused = refused.saturating_add(1);
        }
    }
    Err("no end".into())
}
