//! What has changed in a text.

ghost use Rattle.std.specs.Prelude.{◌≡◌, ◌≤◌, ◌+◌, length, reverse, map, IfOk};
ghost use Rattle.theory_explanation.specs.Changing.{change_text, changed_words, mark_before, mark_behind, middle_text, same_words, spaced, spaces_behind, words};
ghost use Rattle.counterexample.specs.Texts.{texts_of};
ghost use Rattle.csp_print.specs.Writing.{Writes};

use crate::marks::push_mark;
use std::alloc::{AllocError, Allocator};

/// How many words are told at either side of what has changed.
const NEAREST: usize = 3;

/// What has changed in the new text since the old one, behind the string.
pub(crate) fn push_change<A: Allocator + Copy>(
    alloc: A,
    old: &str,
    new: &str,
    text: &mut String<A>,
) -> Result<(), AllocError>
    ensures { Writes result text.old text.new (change_text old.now new.now) }
{
    if old == new {
        return push_mark("..", text);
    }
    let before = words(alloc, old)?;
    let after = words(alloc, new)?;
    push_changed_words(alloc, &before, &after, text)
}

// What stands between the spaces of the text.
fn words<'t, A: Allocator + Copy>(alloc: A, text: &'t str) -> Result<Vec<&'t str, A>, AllocError>
    ensures { IfOk result (λ ws. texts_of ws.items ≡ words text.now) }
{
    text.split(' ').collect(alloc)
}

// The words that have changed, with the nearest of those that have not.
fn push_changed_words<A: Allocator + Copy>(
    alloc: A,
    old: &[&str],
    new: &[&str],
    text: &mut String<A>,
) -> Result<(), AllocError>
    ensures { Writes result text.old text.new
        (changed_words (texts_of old.now) (texts_of new.now)) }
{
    let front = same_words(old, new);
    let old_behind = reversed(alloc, &old[front..])?;
    let new_behind = reversed(alloc, &new[front..])?;
    let back = same_words(&old_behind, &new_behind);
    push_part(
        front.saturating_sub(NEAREST),
        back.saturating_sub(NEAREST),
        new,
        text,
    )
}

// The words from the last one on.
fn reversed<'t, A: Allocator + Copy>(
    alloc: A,
    words: &[&'t str],
) -> Result<Vec<&'t str, A>, AllocError>
    ensures { IfOk result (λ ws. ws.items ≡ reverse words.now) }
{
    let mut reversed = words.to_vec(alloc)?;
    reversed.reverse();
    Ok(reversed)
}

// How many words the two begin with alike.
fn same_words(old: &[&str], new: &[&str]) -> usize
    ensures count { result ≡ same_words (texts_of old.now) (texts_of new.now) }
    ensures old { result ≤ length old.now }
    ensures new { result ≤ length new.now }
{
    let mut count = 0;
    while count < old.len() && count < new.len() {
        if old[count] != new[count] {
            return count;
        }
        count += 1;
    }
    count
}

// The words without so many at the front and so many at the end.
fn push_part<A: Allocator + Copy>(
    front: usize,
    back: usize,
    words: &[&str],
    text: &mut String<A>,
) -> Result<(), AllocError>
    requires { front + back ≤ length words.now }
    ensures { Writes result text.old text.new (middle_text front back (texts_of words.now)) }
{
    push_mark(mark_before(front), text)?;
    push_spaced(&words[front..words.len() - back], text)?;
    push_mark(mark_behind(back), text)
}

fn mark_before(front: usize) -> &'static str
    ensures { result.now ≡ mark_before front }
{
    if front == 0 { "" } else { ".. " }
}

fn mark_behind(back: usize) -> &'static str
    ensures { result.now ≡ mark_behind back }
{
    if back == 0 { "" } else { " .." }
}

// The words, with a space between.
fn push_spaced<A: Allocator + Copy>(words: &[&str], text: &mut String<A>) -> Result<(), AllocError>
    ensures { Writes result text.old text.new (spaced (texts_of words.now)) }
{
    match words.split_first() {
        Some((first, others)) => {
            push_mark(first, text)?;
            push_spaces_behind(others, text)
        }
        None => Ok(()),
    }
}

// The words, with a space before each.
fn push_spaces_behind<A: Allocator + Copy>(
    words: &[&str],
    text: &mut String<A>,
) -> Result<(), AllocError>
    ensures { Writes result text.old text.new (spaces_behind (texts_of words.now)) }
{
    for word in words {
        push_mark(" ", text)?;
        push_mark(word, text)?;
    }
    Ok(())
}
