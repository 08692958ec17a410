//! The memory that a run has had, as the machine tells it.

ghost use Rattle.std.specs.Prelude.{IfSome};
ghost use Rattle.watch.specs.Memory.{IsToldIn, StandsBetween};

use std::fs::File;
use std::io::Read;
use std::rt::Files;
use std::str;

// The file in which Linux tells of the process that reads it.
const STATUS: &str = "/proc/self/status";

// The file has some 1,500 bytes, and what is looked for stands in the first half.
const MOST_STATUS: usize = 4096;

/// The kilobytes of memory that this process has had at most, where the machine tells that.
pub(crate) fn most_memory<R: Files>(machine: &R) -> Option<u64> {
    let mut bytes = [0; MOST_STATUS];
    let mut file = File::open(machine, STATUS).ok()?;
    let count = file.read(&mut bytes).ok()?;
    let status = str::from_utf8(bytes.get(..count)?).ok()?;
    kilobytes_in(status)
}

/// The number of kilobytes in the text behind `VmHWM:`, if there is one: that of the most memory which was there at once.
pub fn kilobytes_in(status: &str) -> Option<u64>
    ensures { IfSome result (IsToldIn status.now) }
{
    let number = between(status, "VmHWM:", "kB")?;
    number.trim().parse().ok()
}

// What stands in the text behind the first of the one, and before the first of the other behind that.
fn between<'t>(text: &'t str, opening: &str, closing: &str) -> Option<&'t str>
    ensures { IfSome result (λ middle. StandsBetween text.now opening.now closing.now middle.now) }
{
    let (_, behind) = text.split_once(opening)?;
    let (middle, _) = behind.split_once(closing)?;
    Some(middle)
}
