//! What a line asks for.

ghost use Rattle.std.specs.Prelude.{◌≡◌, ◌||◌, nat_eq, reverse};
ghost use Rattle.theory_walk.specs.Commands.{command_in, command_of, is_blank, trimmed, without_blanks};
ghost use Rattle.state_walk.specs.Commands.{command_told};

/// What a line asks for.
#[derive(Clone, Copy)]
pub(crate) enum Command<'l> {
    /// To go back.
    Back,
    /// To end the walk.
    End,
    /// To see the state again.
    Again,
    /// To take the move that the text names.
    Take(&'l [u8]),
}

/// What the line asks for. Spaces and carriage returns around a command are left out.
pub(crate) fn command_of(line: &[u8]) -> Command<'_>
    ensures { command_told result ≡ command_of line.now }
{
    command_in(trimmed(line))
}

fn command_in(text: &[u8]) -> Command<'_>
    ensures { command_told result ≡ command_in text.now }
{
    if text.is_empty() {
        Command::Again
    } else if text == "u".as_bytes() {
        Command::Back
    } else if text == "q".as_bytes() {
        Command::End
    } else {
        Command::Take(text)
    }
}

fn trimmed(text: &[u8]) -> &[u8]
    ensures { result.now ≡ trimmed text.now }
{
    without_last_blanks(without_first_blanks(text))
}

fn without_first_blanks(text: &[u8]) -> &[u8]
    ensures { result.now ≡ without_blanks text.now }
{
    let mut rest = text;
    while let Some((byte, others)) = rest.split_first() {
        if !is_blank(*byte) {
            return rest;
        }
        rest = others;
    }
    rest
}

fn without_last_blanks(text: &[u8]) -> &[u8]
    ensures { result.now ≡ reverse (without_blanks (reverse text.now)) }
{
    let mut rest = text;
    while let Some((byte, others)) = rest.split_last() {
        if !is_blank(*byte) {
            return rest;
        }
        rest = others;
    }
    rest
}

// A space or a carriage return.
fn is_blank(byte: u8) -> bool
    ensures { result ≡ is_blank byte }
{
    byte == 32 || byte == 13
}
