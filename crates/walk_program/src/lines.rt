//! The lines of an input.

ghost use Rattle.std.specs.Prelude.{◌≡◌, ◌≤◌, ◌∷◌, ◌++◌, ◌↔◌, [], None, IfErr, IfOk, IsTrue, OnOk, false, length, option_to_list, take};
ghost use Rattle.std.specs.Io.KnownBytes.{Consumes, IsAtEnd};
ghost use Rattle.walk_program.specs.Lines.{IsLineRead, IsSomeRead, as_command, left};
ghost use Rattle.walk_program.specs.Stops.{StopsReading};
ghost use Rattle.walk_program.specs.declared.stop.Stop.TheVariants as stop;

use crate::stop::Stop;
use std::alloc::{AllocError, Allocator};
use std::io::{ErrorKind, Read};

/// The most bytes of a line that may be a command.
const MOST_BYTES: usize = 4_096;

/// What stands for a line that has more. It names no step.
const TOO_LONG: &[u8] = b"?";

/// A line that was read.
#[derive(Drop)]
pub(crate) struct Line<A: Allocator> {
    /// Its bytes, without its end, or the first 4,097 of them where it has more.
    pub(crate) kept: Vec<u8, A>,
    /// Whether it has an end. Where it has none it is the last one of the input, and empty if nothing was left.
    pub(crate) has_end: bool,
}

impl<A: Allocator> Line<A> {
    /// The command that it is.
    pub(crate) fn command(&self) -> &[u8]
        ensures { result.now ≡ as_command self.now.kept.items }
    {
        if self.kept.len() > MOST_BYTES {
            TOO_LONG
        } else {
            &self.kept
        }
    }

    /// Whether nothing was left of the input.
    pub(crate) fn is_nothing(&self) -> bool
        ensures { IsTrue result ↔ (self.now.kept.items ≡ []) × (self.now.has_end ≡ false) }
    {
        self.kept.is_empty() && !self.has_end
    }
}

/// The next line of the input. `Input` comes where the input failed, and `Refused` where memory was refused.
pub(crate) fn read_line<A: Allocator, I: Read>(alloc: A, input: &mut I) -> Result<Line<A>, Stop>
    ensures line { IfOk result (λ line.
        IsLineRead (left I.remaining input.old input.new) line.kept.items line.has_end) }
    ensures lost { IfErr result (λ _. IsSomeRead (left I.remaining input.old input.new)) }
    ensures why { IfErr result StopsReading }
{
    let mut kept = Vec::new(alloc);
    for _ in 0..u64::MAX {
        let byte = next_byte(input)?;
        match byte {
            Some(b'\n') => return Ok(Line {
                kept,
                has_end: true,
            }),
            Some(byte) => keep(byte, &mut kept)?,
            None => return Ok(Line {
                kept,
                has_end: false,
            }),
        }
    }
    Err(Stop::Input)
}

// The byte behind the others, unless so many are kept that the line is too long.
fn keep<A: Allocator>(byte: u8, kept: &mut Vec<u8, A>) -> Result<(), AllocError>
    requires { length kept.old.items ≤ 4097 }
    ensures { OnOk result (kept.new.items ≡ take 4097 (kept.old.items ++ byte ∷ [])) }
{
    if kept.len() <= MOST_BYTES {
        kept.push(byte)?;
    }
    Ok(())
}

// The next byte of the input, if one is left.
fn next_byte<I: Read>(input: &mut I) -> Result<Option<u8>, Stop>
    ensures byte { IfOk result (λ byte.
        Consumes (I.remaining input.old) (I.remaining input.new) (option_to_list byte)) }
    ensures end { IfOk result (λ byte. byte ≡ None → IsAtEnd (I.remaining input.new)) }
    ensures lost { IfErr result (λ _. Consumes (I.remaining input.old) (I.remaining input.new) []) }
    ensures why { IfErr result (λ why. why ≡ stop.Input) }
{
    let mut byte = [0];
    for _ in 0..u64::MAX {
        match input.read(&mut byte) {
            Ok(0) => return Ok(None),
            Ok(_) => return Ok(Some(byte[0])),
            Err(error) if error.kind() == ErrorKind::Interrupted => {}
            Err(_) => return Err(Stop::Input),
        }
    }
    Err(Stop::Input)
}
