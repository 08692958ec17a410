//! The graphs of small processes, as texts. The expected texts come from the rules.

use crate::implementations::implementation;
use crate::scripts::script;
use graph_text::{push_aldebaran, push_graphviz};
use report::Buffer;
use state_graph::{Unobserved, fates_of, graph_of};
use std::alloc::Global;
use std::str;
use std::test::Fail;

struct Row {
    definitions: &'static str,
    process: &'static str,
    aldebaran: &'static str,
    graphviz: &'static str,
}

static ROWS: &[Row] = &[
    Row {
        definitions: "",
        process: "STOP",
        aldebaran: "des (0, 0, 1)\n",
        graphviz: "digraph {\n  0 [label=\"0 deadlocked\", color=red];\n}\n",
    },
    Row {
        definitions: "",
        process: "SKIP",
        aldebaran: "des (0, 1, 2)\n(0, \"tick\", 1)\n",
        graphviz: "digraph {\n  0 [label=\"0\"];\n  1 [label=\"1 ended\", shape=doublecircle];\n  0 -> 1 [label=\"tick\"];\n}\n",
    },
    Row {
        definitions: "P = P",
        process: "P",
        aldebaran: "des (0, 1, 1)\n(0, \"tau\", 0)\n",
        graphviz: "digraph {\n  0 [label=\"0 diverging\", color=blue];\n  0 -> 0 [label=\"tau\"];\n}\n",
    },
    Row {
        definitions: "P = a -> P",
        process: "P",
        aldebaran: "des (0, 2, 2)\n(0, \"tau\", 1)\n(1, \"a\", 0)\n",
        graphviz: "digraph {\n  0 [label=\"0\"];\n  1 [label=\"1\"];\n  0 -> 1 [label=\"tau\"];\n  1 -> 0 [label=\"a\"];\n}\n",
    },
    // Both sides lead to one state, which is known again.
    Row {
        definitions: "",
        process: "a -> STOP ||| b -> STOP",
        aldebaran: "des (0, 4, 4)\n(0, \"a\", 1)\n(0, \"b\", 2)\n(1, \"b\", 3)\n(2, \"a\", 3)\n",
        graphviz: "digraph {
  0 [label=\"0\"];
  1 [label=\"1\"];
  2 [label=\"2\"];
  3 [label=\"3 deadlocked\", color=red];
  0 -> 1 [label=\"a\"];
  0 -> 2 [label=\"b\"];
  1 -> 3 [label=\"b\"];
  2 -> 3 [label=\"a\"];
}
",
    },
    // Two events lead to the same state.
    Row {
        definitions: "",
        process: "d?x -> STOP",
        aldebaran: "des (0, 2, 2)\n(0, \"d.0\", 1)\n(0, \"d.1\", 1)\n",
        graphviz: "digraph {\n  0 [label=\"0\"];\n  1 [label=\"1 deadlocked\", color=red];\n  0 -> 1 [label=\"d.0\"];\n  0 -> 1 [label=\"d.1\"];\n}\n",
    },
    // A state from which taus can go on for ever diverges, though they need not.
    Row {
        definitions: "P = P",
        process: "STOP |~| P",
        aldebaran: "des (0, 3, 3)\n(0, \"tau\", 1)\n(0, \"tau\", 2)\n(2, \"tau\", 2)\n",
        graphviz: "digraph {
  0 [label=\"0 diverging\", color=blue];
  1 [label=\"1 deadlocked\", color=red];
  2 [label=\"2 diverging\", color=blue];
  0 -> 1 [label=\"tau\"];
  0 -> 2 [label=\"tau\"];
  2 -> 2 [label=\"tau\"];
}
",
    },
    // An event is hidden, and one of the channel `tau` is told from it.
    Row {
        definitions: "",
        process: "(a -> tau -> tick -> STOP) \\ {a}",
        aldebaran: "des (0, 3, 4)\n(0, \"tau\", 1)\n(1, \"event tau\", 2)\n(2, \"event tick\", 3)\n",
        graphviz: "digraph {
  0 [label=\"0\"];
  1 [label=\"1\"];
  2 [label=\"2\"];
  3 [label=\"3 deadlocked\", color=red];
  0 -> 1 [label=\"tau\"];
  1 -> 2 [label=\"event tau\"];
  2 -> 3 [label=\"event tick\"];
}
",
    },
];

/// Hands out the table.
fn rows() -> &'static [Row] {
    ROWS
}

/// Whether the graph of the process has both texts, with at most so many states.
fn has_texts(alloc: Global, row: &Row, most: usize) -> Result<bool, Fail> {
    let script = script(alloc, row.definitions, row.process)?;
    let graph = graph_of(alloc, &script, implementation(&script)?, most, &Unobserved)?;
    let fates = fates_of(alloc, &graph)?;
    let mut aldebaran = Buffer::new(alloc);
    push_aldebaran(&script, &graph, &mut aldebaran)?;
    let mut graphviz = Buffer::new(alloc);
    push_graphviz(&script, &fates, &graph, &mut graphviz)?;
    Ok(
        str::from_utf8(&aldebaran.bytes)? == row.aldebaran
            && str::from_utf8(&graphviz.bytes)? == row.graphviz,
    )
}

#[test]
fn graphs_have_their_texts(rt: HostRuntime) -> Result<(), Fail> {
    for row in rows() {
        assert!(rt; has_texts(rt.alloc(), row, 4)?, "{}", row.process);
    }
    Ok(())
}
