//! For a name that means nothing where a process or an event is asked for.

use crate::conditions::Condition::Here;
use crate::tables::Advice;

const LEFT_OUT: &str = "leave this out, and keep its argument: compressions change no answer";

const CHANGES: &str = "nothing stands in its place: `chase` and `prioritise` may change an answer";

const STOP: &str = "the process that does nothing is written `STOP`";

const SKIP: &str = "the process that ends is written `SKIP`";

const ROWS: &[Advice] = &[
    Advice {
        when: &[Here("let")],
        text: "there is no `let`: write `[] y:{E} @ P` for `let y = E within P`",
    },
    Advice {
        when: &[Here("RUN")],
        text: "there is no `RUN`: write `RUN = a -> RUN [] b -> RUN` for `RUN({a,b})`",
    },
    Advice {
        when: &[Here("CHAOS")],
        text: "there is no `CHAOS`: write `CHAOS = STOP |~| (a -> CHAOS [] b -> CHAOS)` for `CHAOS({a,b})`",
    },
    Advice {
        when: &[Here("DIV")],
        text: "there is no `DIV`: write `DIV = DIV`",
    },
    Advice {
        when: &[Here("WAIT")],
        text: "there is no time: leave `WAIT` out",
    },
    Advice {
        when: &[Here("stop")],
        text: STOP,
    },
    Advice {
        when: &[Here("Stop")],
        text: STOP,
    },
    Advice {
        when: &[Here("skip")],
        text: SKIP,
    },
    Advice {
        when: &[Here("Skip")],
        text: SKIP,
    },
    Advice {
        when: &[Here("normal")],
        text: LEFT_OUT,
    },
    Advice {
        when: &[Here("sbisim")],
        text: LEFT_OUT,
    },
    Advice {
        when: &[Here("wbisim")],
        text: LEFT_OUT,
    },
    Advice {
        when: &[Here("diamond")],
        text: LEFT_OUT,
    },
    Advice {
        when: &[Here("tau_loop_factor")],
        text: LEFT_OUT,
    },
    Advice {
        when: &[Here("chase")],
        text: CHANGES,
    },
    Advice {
        when: &[Here("prioritise")],
        text: CHANGES,
    },
];

/// The rows.
pub(crate) fn rows() -> &'static [Advice] {
    ROWS
}
