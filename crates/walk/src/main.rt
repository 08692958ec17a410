//! `walk FILE N` shows a side of an assertion state by state, and takes the steps that one chooses.
//!
//! `walk_program::run` is the whole program, over words, files and streams. Here it is handed those of the machine, and
//! a thread with a large stack, if there can be one. The lines that choose are those of standard input.
#![tactic(auto)]

ghost use Rattle.std.specs.Prelude.{◌≡◌, false};

use program::{MachineFiles, Resources, command_words, on_large_stack, start};
use report::Out;
use std::process::ExitCode;
use walk_program::run;

fn main(rt: HostRuntime) -> ExitCode {
    ExitCode::from(on_large_stack(&rt, move |stack| {
        let (mut out, mut err) = (Out::new(rt.stdout()), Out::new(rt.stderr()));
        start(
            rt.alloc(),
            command_words(&rt),
            &mut out,
            &mut err,
            |words, out, err|
                requires out { out.old.failed ≡ false }
                requires err { err.old.failed ≡ false }
            {
                let resources = Resources {
                    command_line: rt.alloc(),
                    alloc: rt.alloc(),
                    rt: &rt,
                    stack,
                };
                let (mut files, mut input) = (MachineFiles::new(&rt), rt.reader());
                run(&resources, words, &mut files, &mut input, out, err)
            },
        )
    }))
}
