//! `graph FILE N` prints all states that a side of an assertion reaches, and all their steps, for other tools.
//!
//! `graph_program::run` is the whole program, over words, files and streams. Here it is handed those of the machine,
//! its clock, and a thread with a large stack, if there can be one.
#![tactic(auto)]

ghost use Rattle.std.specs.Prelude.{◌≡◌, false};

use graph_program::run;
use program::{MachineFiles, Resources, command_words, on_large_stack, start};
use report::Out;
use std::io::IsTerminal;
use std::process::ExitCode;
use watch::MachineWatch;

fn main(rt: HostRuntime) -> ExitCode {
    ExitCode::from(on_large_stack(&rt, move |stack| {
        let (mut out, mut err) = (Out::new(rt.stdout()), Out::new(rt.stderr()));
        start(
            rt.alloc(),
            command_words(&rt),
            &mut out,
            &mut err,
            |words, out, err|
                requires out { out.old.failed ≡ false }
                requires err { err.old.failed ≡ false }
            {
                let resources = Resources {
                    command_line: rt.alloc(),
                    alloc: rt.alloc(),
                    rt: &rt,
                    stack,
                };
                let watch = MachineWatch::begin(&rt, rt.stderr().is_terminal());
                let mut files = MachineFiles::new(&rt);
                run(&resources, words, &mut files, &watch, out, err)
            },
        )
    }))
}
