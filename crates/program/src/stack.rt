//! The stack that a run has.

ghost use Rattle.std.specs.Prelude.{◌↔◌, IsTrue};
ghost use Rattle.program.specs.Stack.{Takes};

/// The most bytes of a text that is read, searched and printed on a stack of which nothing is known.
///
/// As `explore::STACK` tells, a level of a value takes two of them, and 430 bytes of stack. So the copy of a value takes
/// less than 1 MB here, and all else took 1.2 MB at most. The first thread of a program mostly has 8 MB.
pub const SHORT_TEXT: usize = 4_096;

/// The stack that a run has.
#[derive(Clone, Copy, Debug, PartialEq, Eq)]
pub enum Stack {
    /// One that is large enough for every text that may be a script.
    Large,
    /// That of a thread which was there before, of which nothing is known.
    Found,
}

impl Stack {
    /// Whether a text of so many bytes is read, searched and printed on it.
    pub fn takes(self, bytes: usize) -> bool
        ensures { IsTrue result ↔ Takes self bytes }
    {
        match self {
            Stack::Large => true,
            Stack::Found => bytes <= SHORT_TEXT,
        }
    }
}
