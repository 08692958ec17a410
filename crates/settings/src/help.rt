//! The texts of `--help` and `--version`.

/// What `--version` shows behind the program's name.
pub(crate) const VERSION: &str = "0.1.0";

/// What the program is for.
pub(crate) const ABOUT: &str =
    "Checks the refinement assertions of a CSP script, and prints a line for each";

/// What each line and each status means, and an example.
pub(crate) const LINES_AND_STATUS: &str = "\
Lines, each with the number of its assertion:
  1 holds                       what the assertion asks is so
  2 fails trace <a> event b     after <a> it can do b, and the specification cannot
  3 fails trace <a> offers {b}  after <a> it can refuse all but b, and the specification cannot
  4 fails trace <a> deadlock    after <a> it can do nothing
  5 fails trace <a> diverges    after <a> it can go on for ever with nothing that is seen
  6 fails                       what stands behind `not` is so
  7 unknown pairs               over --max-pairs pairs are reachable, of a node of the specification
                                and a process of the implementation: no answer within the limit
  8 unknown nodes               the specification has over --max-nodes nodes, or a node has over as
                                many states: no answer within the limit
  9 unknown term                a side reaches a process that is too large
  10 unknown fault overflow     a side reaches a value that does not exist: range, overflow, empty,
                                modulus or choice
  11 unknown memory             memory was refused

Refusals, in place of all lines, on standard error:
  refused L01 at 3:5            L01 to L05: at line 3, column 5 the text gives no token
  refused S01 at 3:5            S01 to S04: the tokens are none of the grammar there
  refused K01 at 3:5            K01 to K06: a name, a kind or a set is wrong there
  refused file                  the file cannot be read
  refused memory                memory was refused
  refused thread                no thread can be had, and the text has over 4096 bytes
  refused output                the output failed, and may have a beginning of the lines

`explain FILE 2`, with the same options, tells step by step why assertion 2 fails; of a script that
is refused it shows the line, and what may be meant. `explain --help` has each refusal in words.

--unfold is good for every check, but where the least trace by the letter matters: paths have fewer
taus with it, so that of several violations another one may be the nearest.

Status:
  0  every assertion holds
  1  one fails, and each has an answer
  2  one is unknown
  3  the command line, the file or the script is refused, or the output failed

Example:
  refcheck --max-pairs 1000000 protocol.csp";
