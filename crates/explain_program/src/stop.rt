//! Why a request is not met.

ghost use Rattle.std.specs.Prelude.{◌≡◌, false};
ghost use Rattle.program.specs.Given.{sent};
ghost use Rattle.program.specs.Running.{IsGiven};
ghost use Rattle.explain_settings.specs.declared.format.Format.TheVariants as formats;
ghost use Rattle.explain_program.specs.Refusals.{stop_line, stop_word};

use crate::untold::Untold;
use explain_settings::Format;
use program::{Refusal, refuse, refuse_words};
use report::{Sink, push_each};

/// Why a request is not met.
#[derive(Clone, Copy, Debug, PartialEq, Eq)]
pub enum Stop {
    /// The file or its text is refused, memory was, or the output failed.
    Refused(Refusal),
    /// The script has no assertion of this number.
    NoAssertion,
}

/// Gives the line of what stopped the run to `err`, in the format, and answers the status of a refusal. No memory is taken
/// for it.
pub(crate) fn report_stop<E: Sink>(format: Format, why: Stop, err: &mut E) -> u8
    requires { E.has_failed err.old ≡ false }
    ensures status { result ≡ 3 }
    ensures line { IsGiven (sent E.taken E.has_failed err.old err.new) (stop_line format why) }
{
    match format {
        Format::Text => report_in_words(why, err),
        Format::Json => report_by_object(why, err),
    }
}

fn report_in_words<E: Sink>(why: Stop, err: &mut E) -> u8
    requires { E.has_failed err.old ≡ false }
    ensures status { result ≡ 3 }
    ensures line { IsGiven (sent E.taken E.has_failed err.old err.new)
        (stop_line formats.Text why) }
{
    match why {
        Stop::Refused(why) => refuse(why, err),
        Stop::NoAssertion => refuse_words("refused assertion\n", err),
    }
}

fn report_by_object<E: Sink>(why: Stop, err: &mut E) -> u8
    requires { E.has_failed err.old ≡ false }
    ensures status { result ≡ 3 }
    ensures line { IsGiven (sent E.taken E.has_failed err.old err.new)
        (stop_line formats.Json why) }
{
    let texts = [
        "{\"answer\":\"refused\",\"refusal\":\"",
        stop_word(why),
        "\"}\n",
    ];
    let _ = push_each(&texts, err);
    3
}

// The word of what stops a run, or the number of a text's refusal.
fn stop_word(why: Stop) -> &'static str
    ensures { result.now ≡ stop_word why }
{
    match why {
        Stop::Refused(Refusal::File(_)) => "file",
        Stop::Refused(Refusal::Text { fault, .. }) => fault.number(),
        Stop::Refused(Refusal::Grammar { fault, .. }) => fault.number(),
        Stop::Refused(Refusal::Kinds { fault, .. }) => fault.number(),
        Stop::Refused(Refusal::Memory) => "memory",
        Stop::Refused(Refusal::Thread) => "thread",
        Stop::Refused(Refusal::Output) => "output",
        Stop::NoAssertion => "assertion",
    }
}

impl From<Untold> for Stop {
    ghost use Rattle.explain_program.specs.Running.{of_untold};

    ghost from_gives = { λ why stop. stop ≡ of_untold why };

    fn from(why: Untold) -> Stop {
        match why {
            Untold::Memory => Stop::Refused(Refusal::Memory),
            Untold::Output => Stop::Refused(Refusal::Output),
        }
    }
}
