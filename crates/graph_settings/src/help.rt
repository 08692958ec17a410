//! The texts of `--help` and `--version`.

/// What `--version` shows behind the program's name.
pub(crate) const VERSION: &str = "0.1.0";

/// What the program is for.
pub(crate) const ABOUT: &str =
    "Prints all states that a side of an assertion reaches, and all their steps";

/// What is printed, the refusals, what each status means, and an example.
pub(crate) const MORE: &str = "\
The states are numbered from 0, the first one, as they are met by shortest and, of these, least
paths. A step is told by its event; `tau` is a hidden one, and `tick` the end of a process. An event
of a channel of such a name is told as `event tau`.

Formats:
  aut  Aldebaran, as mCRL2, CADP and LTSmin read it: how many steps and states there are, and a line
       for each step
  dot  Graphviz: a line for each state and for each step. A state that has ended is a double circle,
       one that is deadlocked is red, and one that diverges is blue

Refusals, on standard error. Standard output has nothing then:
  refused assertion       the script has no assertion of this number
  refused specification   the assertion has no specification
  refused states          over --max-states M states are reached
  refused term            a state is reached that is too large, or some step of which leads to one
  refused fault overflow  a state is reached with a value that does not exist: range, overflow,
                          empty, modulus or choice
  refused memory          memory was refused
  refused thread          no thread can be had, and the text has over 4096 bytes
  refused output          the output failed, and may have a beginning of the graph
A file that cannot be read is told by its name and the reason, and a text that is no script with the
place, the rule and its line. `explain --help` has each of these rules.

Status:
  0  the graph is printed
  3  the command line, the file, the script or the graph is refused, or the output failed

Example:
  graph --format dot protocol.csp 3 | dot -Tsvg > protocol.svg";
