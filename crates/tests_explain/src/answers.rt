//! Command lines that no table of cases can show.

ghost use Rattle.std.specs.Prelude.{◌≡◌};

use crate::command_lines::wrong_words;
use crate::runs::{run_in, run_on};
use program::{Files, Lack, Unread};
use std::alloc::Global;
use std::test::Fail;

// No file can be read, for this reason.
#[derive(Clone, Copy, Drop)]
struct Lacking {
    why: Lack,
}

impl Files<Global> for Lacking {
    ghost may_hold = { λ _ _ _. ⊥ };

    ghost may_lack = { λ files _ why. why ≡ files.why };

    fn read(&mut self, _name: &str) -> Result<Vec<u8>, Unread> {
        Err(Unread::File(self.why))
    }
}

// What is told of a file, by the reason why it cannot be read. A control character in its name is shown as a space.
const LACKS: [(Lack, &str); 4] = [
    (
        Lack::Missing,
        "ot [2J her : refused file: there is no such file\n",
    ),
    (Lack::Folder, "ot [2J her : refused file: it is a folder\n"),
    (
        Lack::Forbidden,
        "ot [2J her : refused file: it may not be read\n",
    ),
    (
        Lack::Broken,
        "ot [2J her : refused file: it cannot be read\n",
    ),
];

#[test]
fn a_file_that_cannot_be_read_is_refused(rt: HostRuntime) -> Result<(), Fail> {
    let words = ["ot\u{1b}[2J\u{9b}her\n"];
    for (why, line) in &LACKS {
        let mut files = Lacking { why: *why };
        let told = run_in(rt.alloc(), rt.alloc(), &rt, &words, &mut files);
        assert!(rt; told.is(3, "", line), "at {why:?}");
    }
    Ok(())
}

#[test]
fn wrong_command_lines_are_refused(rt: HostRuntime) -> Result<(), Fail> {
    for (words, said) in wrong_words() {
        let told = run_on(rt.alloc(), &rt, words, b"");
        let is_said = told.err.as_slice().starts_with(said.as_bytes());
        assert!(rt;
            told.status == 3 && told.out.is_empty() && is_said,
            "at {words:?}"
        );
    }
    Ok(())
}

#[test]
fn help_and_version_are_shown(rt: HostRuntime) -> Result<(), Fail> {
    let version = run_on(rt.alloc(), &rt, &["--version"], b"");
    assert!(rt; version.is(0, "explain 0.1.0\n", ""));
    let help = run_on(rt.alloc(), &rt, &["--help"], b"");
    let said = b"Checks the assertions of a CSP script as refcheck does, and tells why\n";
    assert!(rt; help.status == 0 && help.err.is_empty());
    assert!(rt; help.out.as_slice().starts_with(said));
    Ok(())
}
