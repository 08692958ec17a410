//! What is told of the time and the memory of a search.

use crate::runs::is_told;
use crate::ticking::Ticking;
use std::test::Fail;

// The words, and what is told where the clock goes on by so much after the first look, and stands still then.
const ROWS: [(&[&str], &str); 3] = [
    (
        &["explain", "--count", "script", "1"],
        "1 holds  assert a -> STOP [T= a -> STOP\n  2 pairs, 2 nodes\n  1532 milliseconds, 211 megabytes at most\n",
    ),
    (
        &["explain", "--count", "--format", "json", "script", "1"],
        "{\"number\":1,\"line\":2,\"column\":1,\"assertion\":\"a -> STOP [T= a -> STOP\",\"answer\":\"holds\",\
        \"pairs\":2,\"nodes\":2,\"milliseconds\":1532,\"kilobytes\":216064,\"words\":\"1 holds  assert a -> STOP [T= a -> STOP\\n\"}\n",
    ),
    (
        &["explain", "script", "1"],
        "1 holds  assert a -> STOP [T= a -> STOP\n",
    ),
];

#[test]
fn counts_have_their_cost(rt: HostRuntime) -> Result<(), Fail> {
    for (words, told) in &ROWS {
        let watch = Ticking::new(1532, 1532, false, &[]);
        assert!(rt;
            is_told(rt.alloc(), &rt, &watch, words, 0, told) && watch.is_told(),
            "at {words:?}"
        );
    }
    Ok(())
}
