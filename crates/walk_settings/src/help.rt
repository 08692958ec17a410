//! The texts of `--help` and `--version`.

/// What `--version` shows behind the program's name.
pub(crate) const VERSION: &str = "0.1.0";

/// What the program is for.
pub(crate) const ABOUT: &str =
    "Shows a side of an assertion state by state, and takes the steps that you choose";

/// What is shown, the commands, the refusals, what each status means, and an example.
pub(crate) const MORE: &str = "\
Each state is shown with its steps, numbered from 1: what is seen of each, and where it comes from.
A part has the name that has unfolded last there. Nothing is printed as a prompt.

Commands, a line each, of at most 4096 bytes:
  2           takes step 2
  coin        takes the step with this event, or `tau` or `tick`, where one step alone has it
  u           goes back by one step
  q           ends, and so does the end of the input
  empty line  shows the state again

A state that has ended, is too large or has no meaning has no steps, and the line says so.

Refusals, on standard error. Standard output has what was shown before:
  refused assertion       the script has no assertion of this number
  refused specification   the assertion has no specification
  refused memory          memory was refused
  refused input           the input failed
  refused thread          no thread can be had, and the text has over 4096 bytes
  refused output          the output failed
A file that cannot be read is told by its name and the reason, and a text that is no script with the
place, the rule and its line. `explain --help` has each of these rules.

Status:
  0  the walk came to its end
  3  the command line, the file or the script is refused, memory was, or the input or the output
     failed

Example:
  walk --unfold protocol.csp 3";
