//! Outputs that fail.

use crate::full::Full;
use crate::memory::NoMemory;
use crate::outcomes::BEYOND_STOP;
use crate::runs::resources;
use program::{OneText, run};
use report::{Buffer, Out};
use std::alloc::Global;
use std::io::Write;
use std::sync::Wait;
use std::test::Fail;
use std::thread::Threads;

// Whether the run is refused since the output fails, as the error output says.
fn is_cut_off<'w, R: Threads + Wait + Sync, W: Write + Drop>(
    alloc: Global,
    rt: &R,
    words: &'w [&'w str],
    writer: W,
) -> bool {
    let mut files = OneText {
        name: "script",
        text: BEYOND_STOP.0.as_bytes(),
        alloc,
    };
    let mut out = Out::new(writer);
    let mut err = Buffer::new(alloc);
    let status = run(
        &resources(alloc, alloc, rt),
        words,
        &mut files,
        &mut out,
        &mut err,
    );
    status == 3 && err.bytes.as_slice() == "refused output\n".as_bytes()
}

// One output takes nothing of what goes past its room, and one fails there.
#[test]
fn an_output_that_breaks_off_is_refused(rt: HostRuntime) -> Result<(), Fail> {
    let report = BEYOND_STOP.1.as_bytes();
    for room in 0..report.len() {
        let mut taken = [0u8; 25];
        assert!(rt;
            is_cut_off(rt.alloc(), &rt, &["script"], &mut taken[..room]),
            "at {room}"
        );
        assert_eq!(rt; &taken[..room], &report[..room], "at {room}");
        let mut taken = [0u8; 25];
        assert!(rt;
            is_cut_off(rt.alloc(), &rt, &["script"], Full::new(&mut taken[..room])),
            "at {room}"
        );
        assert_eq!(rt; &taken[..room], &report[..room], "at {room}");
    }
    Ok(())
}

#[test]
fn a_text_that_breaks_off_is_refused(rt: HostRuntime) -> Result<(), Fail> {
    let mut taken = [0u8; 8];
    assert!(rt; is_cut_off(rt.alloc(), &rt, &["--version"], &mut taken[..]));
    assert_eq!(rt; &taken, b"refcheck");
    assert!(rt; is_cut_off(rt.alloc(), &rt, &["--help"], Full::new(&mut taken[..])));
    assert_eq!(rt; &taken, b"Checks t");
    Ok(())
}

// What an error output with room for seven bytes has, where a run on these words has status 3.
fn said_in_seven_bytes<'w, R: Threads + Wait + Sync>(
    alloc: Global,
    rt: &R,
    words: &'w [&'w str],
) -> Option<[u8; 7]> {
    let mut out = Buffer::new(alloc);
    let mut room = [0u8; 7];
    let mut err = Out::new(Full::new(&mut room[..]));
    let status = run(
        &resources(alloc, alloc, rt),
        words,
        &mut NoMemory,
        &mut out,
        &mut err,
    );
    if status == 3 && out.bytes.is_empty() {
        Some(room)
    } else {
        None
    }
}

#[test]
fn an_error_output_that_fails_changes_no_status(rt: HostRuntime) -> Result<(), Fail> {
    assert_eq!(rt;
        said_in_seven_bytes(rt.alloc(), &rt, &["script"]),
        Some(*b"refused")
    );
    assert_eq!(rt;
        said_in_seven_bytes(rt.alloc(), &rt, &[]),
        Some(*b"error: ")
    );
    Ok(())
}
