//! Why nothing was answered.

ghost use Rattle.std.specs.Prelude.{◌≡◌, false};
ghost use Rattle.program.specs.Given.{sent};
ghost use Rattle.program.specs.Refusal.{refusal_line, place_line};
ghost use Rattle.program.specs.Running.{IsGiven};

use crate::files::{Lack, Unread};
use csp_kinds::KindFault;
use csp_lex::{Place, TextFault};
use csp_parse::GrammarFault;
use csp_term::Memory;
use itoa::Buffer;
use report::{Failed, Sink, push_all, push_each};

/// What was refused.
#[derive(Clone, Copy, Debug, PartialEq, Eq)]
pub enum Refusal {
    /// The file cannot be read, for this reason; or a word of the command line is no text.
    File(Lack),
    /// The text has no tokens, by this fault at this place.
    Text { fault: TextFault, place: Place },
    /// The tokens are no script, by this fault at this place.
    Grammar { fault: GrammarFault, place: Place },
    /// The script has no kinds, or a name of it is wrong, by this fault at this place.
    Kinds { fault: KindFault, place: Place },
    /// Memory was refused for the words, the file, the script or the list of outcomes.
    Memory,
    /// No thread with a large stack can be had, and the text is too long for the stack that is there.
    Thread,
    /// The report, or the help or the version, could not be written.
    Output,
}

/// Gives the line of a refusal to the sink. No memory is taken for it.
pub(crate) fn push_line<E: Sink>(why: Refusal, sink: &mut E)
    requires { E.has_failed sink.old ≡ false }
    ensures { IsGiven (sent E.taken E.has_failed sink.old sink.new) (refusal_line why) }
{
    let _ = match why {
        Refusal::File(_) => push_all(b"refused file\n", sink),
        Refusal::Text { fault, place } => push_place(fault.number(), place, sink),
        Refusal::Grammar { fault, place } => push_place(fault.number(), place, sink),
        Refusal::Kinds { fault, place } => push_place(fault.number(), place, sink),
        Refusal::Memory => push_all(b"refused memory\n", sink),
        Refusal::Thread => push_all(b"refused thread\n", sink),
        Refusal::Output => push_all(b"refused output\n", sink),
    };
}

// Gives the line of a refusal that has a place.
fn push_place<E: Sink>(number: &str, place: Place, sink: &mut E) -> Result<(), Failed>
    requires { E.has_failed sink.old ≡ false }
    ensures { IsGiven (sent E.taken E.has_failed sink.old sink.new) (place_line number.now place) }
{
    let (mut line, mut column) = (Buffer::new(), Buffer::new());
    let texts = [
        "refused ",
        number,
        " at ",
        line.format(place.line),
        ":",
        column.format(place.column),
        "\n",
    ];
    push_each(&texts, sink)
}

impl From<Unread> for Refusal {
    ghost use Rattle.program.specs.Refusal.{of_file};

    ghost from_gives = { λ fault why. why ≡ of_file fault };

    fn from(fault: Unread) -> Refusal {
        match fault {
            Unread::File(why) => Refusal::File(why),
            Unread::Memory => Refusal::Memory,
        }
    }
}

impl From<csp_lex::Refused> for Refusal {
    ghost use Rattle.program.specs.Refusal.{of_lexer};

    ghost from_gives = { λ refused why. why ≡ of_lexer refused };

    fn from(refused: csp_lex::Refused) -> Refusal {
        match refused {
            csp_lex::Refused::Text { fault, place } => Refusal::Text { fault, place },
            csp_lex::Refused::Memory => Refusal::Memory,
        }
    }
}

impl From<csp_parse::Refused> for Refusal {
    ghost use Rattle.program.specs.Refusal.{of_parser};

    ghost from_gives = { λ refused why. why ≡ of_parser refused };

    fn from(refused: csp_parse::Refused) -> Refusal {
        match refused {
            csp_parse::Refused::Grammar { fault, place } => Refusal::Grammar { fault, place },
            csp_parse::Refused::Memory => Refusal::Memory,
        }
    }
}

impl From<csp_kinds::Refused> for Refusal {
    ghost use Rattle.program.specs.Refusal.{of_kinds};

    ghost from_gives = { λ refused why. why ≡ of_kinds refused };

    fn from(refused: csp_kinds::Refused) -> Refusal {
        match refused {
            csp_kinds::Refused::Fault { fault, place } => Refusal::Kinds { fault, place },
            csp_kinds::Refused::Memory => Refusal::Memory,
        }
    }
}

impl From<Memory> for Refusal {
    ghost use Rattle.program.specs.declared.refusal.Refusal.TheVariants.{Memory as no_memory};

    ghost from_gives = { λ _ why. why ≡ no_memory };

    fn from(_refused: Memory) -> Refusal {
        Refusal::Memory
    }
}
