//! Outputs that fail.

use crate::full::Full;
use crate::runs::resources;
use explain_program::run;
use program::{OneText, Stack};
use report::{Buffer, Out};
use std::alloc::Global;
use std::io::Write;
use std::sync::Wait;
use std::test::Fail;
use std::thread::Threads;
use watch::Unwatched;

const TEXT: &str = "channel a\nassert a -> STOP [T= STOP\nassert STOP [T= a -> STOP\n";

const TOLD: &str = "\
1 holds  assert a -> STOP [T= STOP
2 fails  assert STOP [T= a -> STOP
  0 start
      a -> STOP
      specification: STOP
  then it does a, and the specification cannot
  there the specification can do no more than {}
";

// Whether the run is refused since the output fails, as the error output says.
fn is_cut_off<'w, R: Threads + Wait + Sync, W: Write + Drop>(
    alloc: Global,
    rt: &R,
    words: &'w [&'w str],
    writer: W,
) -> bool {
    let mut files = OneText {
        name: "script",
        text: TEXT.as_bytes(),
        alloc,
    };
    let mut out = Out::new(writer);
    let mut err = Buffer::new(alloc);
    let status = run(
        &resources(Stack::Large, alloc, alloc, rt),
        words,
        &mut files,
        &Unwatched,
        &mut out,
        &mut err,
    );
    status == 3 && err.bytes.as_slice() == "refused output\n".as_bytes()
}

// One output takes nothing of what goes past its room, and one fails there.
#[test]
fn an_output_that_breaks_off_is_refused(rt: HostRuntime) -> Result<(), Fail> {
    let told = TOLD.as_bytes();
    for room in 0..told.len() {
        let mut taken = [0u8; 256];
        assert!(rt;
            is_cut_off(rt.alloc(), &rt, &["script"], &mut taken[..room]),
            "at {room}"
        );
        assert_eq!(rt; &taken[..room], &told[..room], "at {room}");
        let mut taken = [0u8; 256];
        assert!(rt;
            is_cut_off(rt.alloc(), &rt, &["script"], Full::new(&mut taken[..room])),
            "at {room}"
        );
        assert_eq!(rt; &taken[..room], &told[..room], "at {room}");
    }
    Ok(())
}

#[test]
fn a_text_that_breaks_off_is_refused(rt: HostRuntime) -> Result<(), Fail> {
    let mut taken = [0u8; 8];
    assert!(rt; is_cut_off(rt.alloc(), &rt, &["--version"], &mut taken[..]));
    assert_eq!(rt; &taken, b"explain ");
    Ok(())
}
