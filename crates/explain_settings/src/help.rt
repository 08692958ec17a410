//! The texts of `--help` and `--version`.

ghost use Rattle.std.specs.Prelude.{◌≡◌, ◌++◌, IfOk};
ghost use Rattle.std.specs.String.{string_bytes};
ghost use Rattle.explain_settings.specs.Help.{refusals};

use diagnostics::refusal_list;
use std::alloc::{AllocError, Allocator};

/// What `--version` shows behind the program's name.
pub(crate) const VERSION: &str = "0.1.0";

/// What the program is for.
pub(crate) const ABOUT: &str =
    "Checks the assertions of a CSP script as refcheck does, and tells why";

/// What is told, what each status means, and an example.
pub(crate) const STATUS: &str = "\
For an assertion that fails it tells each step of the path: its number, what is seen of it and which
parts do it, and what has changed in the state of the implementation, the last of which is told
whole. At the start and behind each step that is seen stand states of the specification; and at the
end what is wrong there, and what the specification has; of a divergence the loop that goes on for
ever; and where the implementation waits what each of its parts can do by itself.

Status, as refcheck's:
  0  every assertion holds
  1  one fails, and each has an answer
  2  one is unknown
  3  the command line, the file or the script is refused, or the output failed

Example:
  explain --width 0 protocol.csp 3";

/// The text with a line for each refusal of a script behind it.
pub(crate) fn with_refusals<A: Allocator + Copy>(
    alloc: A,
    text: &str,
) -> Result<String<A>, AllocError>
    ensures { IfOk result (λ all. string_bytes all ≡ text.now ++ refusals) }
{
    let list = refusal_list(alloc)?;
    format!(in alloc;
        "{text}\nRefusals of a script, each told with its place, the line there and what may be meant:\n{list}"
    )
}
