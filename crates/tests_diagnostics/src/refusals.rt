//! The list of refusals.

use diagnostics::{Fault, refusal_list};
use std::test::Fail;

/// The list of refusals.
pub(crate) const LIST: &str = r"  L01  no token begins with this character
  L02  this comment has no end
  L03  a number is at most 2147483647
  L04  the text is not UTF-8 from here on
  L05  a script has at most 65536 bytes
  S01  this token cannot stand here
  S02  a declaration nests at most 100 levels
  S03  the text ends within a declaration
  S04  brackets have to say what this operator joins
  K01  this name means nothing here
  K02  this name is declared already
  K03  this is of another kind than its place asks for
  K04  this has another number of parts than its declaration
  K05  this set has no value, or is the empty set of a field
  K06  all channels together have at most 4096 events
";

#[test]
fn each_refusal_has_its_line(rt: HostRuntime) -> Result<(), Fail> {
    let list = refusal_list(rt.alloc())?;
    assert!(rt; list.as_str() == LIST, "{list}");
    for fault in Fault::ALL {
        let line = format!(in rt.alloc(); "  {}  {}\n", fault.number(), fault.rule())?;
        assert!(rt; LIST.contains(line.as_str()), "{line}");
    }
    Ok(())
}
