//! What is told beside explanations.

ghost use Rattle.std.specs.Prelude.{◌≡◌, false};
ghost use Rattle.csp_term.specs.Script.{script_of};
ghost use Rattle.program.specs.Given.{sent};
ghost use Rattle.explain_program.specs.Explaining.{IsNotedOf};
ghost use Rattle.explain_program.specs.Refusals.{none_text};

use csp_term::{AllocHandle, Script};
use explain_settings::Format;
use report::{Sink, push_all};

/// Tells `err` where the script has no assertion, and gives it nothing where it has some.
pub(crate) fn note_none<A: AllocHandle, E: Sink>(format: Format, script: &Script<A>, err: &mut E)
    requires { E.has_failed err.old ≡ false }
    ensures { IsNotedOf format (script_of script.now)
        (sent E.taken E.has_failed err.old err.new) }
{
    if script.assertions().is_empty() {
        let _ = push_all(none_text(format).as_bytes(), err);
    }
}

fn none_text(format: Format) -> &'static str
    ensures { result.now ≡ none_text format }
{
    match format {
        Format::Text => "the script has no assertion\n",
        Format::Json => "{\"note\":\"the script has no assertion\"}\n",
    }
}
