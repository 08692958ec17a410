//! Numbers at the end of bytes.

ghost use Rattle.std.specs.Prelude.{◌≡◌, ◌∷◌, ◌++◌, ◌<◌, ◌^◌, OnOk};
ghost use Rattle.theory_spelling.specs.Spelling.{number_spelling, truth_spelling, whole_spelling};

use csp_value::Memory;
use std::alloc::Allocator;

/// Puts the number at the end.
#[tactic(auto, unfolding(theory_spelling::specs::Spelling::number_spelling))]
pub(crate) fn push_number<A: Allocator>(number: u32, bytes: &mut Vec<u8, A>) -> Result<(), Memory>
    ensures { OnOk result (bytes.new.items ≡ bytes.old.items ++ number_spelling number) }
{
    bytes.extend_from_slice(&number.to_le_bytes())?;
    Ok(())
}

/// Puts the tag and the number behind it at the end.
pub(crate) fn push_tagged<A: Allocator>(
    tag: u8,
    number: u32,
    bytes: &mut Vec<u8, A>,
) -> Result<(), Memory>
    ensures { OnOk result (bytes.new.items ≡ bytes.old.items ++ tag ∷ number_spelling number) }
{
    bytes.push(tag)?;
    push_number(number, bytes)
}

/// Puts the length of a list at the end.
pub(crate) fn push_length<A: Allocator>(length: usize, bytes: &mut Vec<u8, A>) -> Result<(), Memory>
    requires { length < 2 ^ 32 }
    ensures { OnOk result (bytes.new.items ≡ bytes.old.items ++ number_spelling length) }
{
    push_number(length as u32, bytes)
}

/// Puts the whole number at the end.
#[tactic(auto, unfolding(theory_spelling::specs::Spelling::number_spelling, theory_spelling::specs::Spelling::whole_spelling))]
pub(crate) fn push_whole<A: Allocator>(number: i32, bytes: &mut Vec<u8, A>) -> Result<(), Memory>
    ensures { OnOk result (bytes.new.items ≡ bytes.old.items ++ whole_spelling number) }
{
    bytes.extend_from_slice(&number.to_le_bytes())?;
    Ok(())
}

/// Puts the truth value at the end.
pub(crate) fn push_truth<A: Allocator>(truth: bool, bytes: &mut Vec<u8, A>) -> Result<(), Memory>
    ensures { OnOk result (bytes.new.items ≡ bytes.old.items ++ truth_spelling truth) }
{
    bytes.push(if truth { 1 } else { 0 })?;
    Ok(())
}
