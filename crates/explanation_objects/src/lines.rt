//! Lines of objects.

ghost use Rattle.std.specs.Prelude.{◌≡◌, ◌∷◌, ◌++◌, [], IfOk, OnOk, codes};
ghost use Rattle.std.specs.String.{string_bytes};
ghost use Rattle.json.specs.Print.{print};
ghost use Rattle.json.specs.Token.{begin_object, end_object};
ghost use Rattle.explanation_objects.specs.Putting.{PutsTokens};

use json::Writer;
use std::alloc::{AllocError, Allocator};

/// A writer of an object, whose fields are put next.
pub(crate) fn begin_line<A: Allocator>(alloc: A) -> Result<Writer<A>, AllocError>
    ensures { IfOk result (λ writer. (writer.before ≡ []) × (writer.tokens ≡ begin_object ∷ [])) }
{
    let mut writer = Writer::new(Vec::new(alloc));
    writer.begin_object()?;
    Ok(writer)
}

/// The text of the object, as a line.
pub(crate) fn end_line<A: Allocator>(writer: Writer<A>) -> Result<String<A>, AllocError>
    requires { writer.before ≡ [] }
    ensures { let tokens = writer.tokens ++ end_object ∷ [] in
        IfOk result (λ line. string_bytes line ≡ print tokens ++ codes "\n") }
{
    let mut writer = writer;
    writer.end_object()?;
    let mut line = String::from_utf8(writer.into_inner()).unwrap();
    line.push_str("\n")?;
    Ok(line)
}
