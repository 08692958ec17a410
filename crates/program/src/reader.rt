//! From a text to the script that it is.

ghost use Rattle.std.specs.Prelude.{IfOk, IfErr};
ghost use Rattle.csp_term.specs.Script.{script_of};
ghost use Rattle.theory_checking.specs.Checked.{IsCheckedText};
ghost use Rattle.program.specs.Reading.{IsRefusalOf};

use crate::refusal::Refusal;
use csp_kinds::check;
use csp_lex::tokens;
use csp_parse::parse;
use csp_term::Script;
use std::alloc::Allocator;

/// The script that the text is.
///
/// The tokens are looked at first (`Text`), then the grammar (`Grammar`), then names and kinds (`Kinds`). `Memory`
/// comes where memory was refused, and says nothing of the text.
pub fn read<A: Allocator + Copy>(alloc: A, text: &[u8]) -> Result<Script<A>, Refusal>
    ensures script { IfOk result (λ script. IsCheckedText text.now (script_of script)) }
    ensures refused { IfErr result (λ why. IsRefusalOf text.now why) }
{
    let list = tokens(alloc, text)?;
    let tree = parse(alloc, &list)?;
    Ok(check(alloc, &tree)?)
}
