//! Scripts from their texts.

use csp_kinds::check;
use csp_lex::tokens;
use csp_parse::parse;
use csp_term::Script;
use std::alloc::Global;
use std::test::Fail;

/// The script with these definitions, and one assertion of this process.
pub(crate) fn script(
    alloc: Global,
    definitions: &str,
    process: &str,
) -> Result<Script<Global>, Fail> {
    let text = format!(in alloc;
        "channel a, b, tau, tick\nchannel d : {{0..1}}\n{definitions}\nassert STOP [T= {process}\n"
    )?;
    let list = tokens(alloc, text.as_bytes())?;
    let raw = parse(alloc, &list)?;
    Ok(check(alloc, &raw)?)
}
