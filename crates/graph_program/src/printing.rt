//! The text of a graph.

ghost use Rattle.std.specs.Prelude.{◌≡◌, IfOk};
ghost use Rattle.theory_graph.specs.Graphs.{IsGraphOf};
ghost use Rattle.theory_graph.specs.Printing.{aldebaran_text};
ghost use Rattle.theory_syntax.specs.Process.{Process};
ghost use Rattle.csp_term.specs.Script.{script_of};
ghost use Rattle.state_graph.specs.Graphs.{IsCounted, graph_of};
ghost use Rattle.graph_program.specs.Graphs.{IsDrawing, IsGraphIn, IsTextOf};

use csp_term::{AllocHandle, Memory, Script};
use graph_settings::Format;
use graph_text::{push_aldebaran, push_graphviz};
use report::Buffer;
use state_graph::{Graph, fates_of};

/// The text of the graph in the format. `Memory` says that there is no room for it.
pub(crate) fn text_of<A: AllocHandle>(
    alloc: A,
    format: Format,
    script: &Script<A>,
    graph: &Graph<A>,
) -> Result<Vec<u8, A>, Memory>
    requires graph { IsGraphIn (script_of script.now) (graph_of graph.now) }
    requires counted { IsCounted graph.now }
    ensures { IfOk result (λ text.
        IsTextOf (script_of script.now) (graph_of graph.now) format text.items) }
{
    match format {
        Format::Aldebaran => aldebaran(alloc, script, graph),
        Format::Graphviz => graphviz(alloc, script, graph),
    }
}

// The text in the Aldebaran format.
fn aldebaran<A: AllocHandle>(
    alloc: A,
    script: &Script<A>,
    graph: &Graph<A>,
) -> Result<Vec<u8, A>, Memory>
    requires { IsCounted graph.now }
    ensures { IfOk result (λ text.
        text.items ≡ aldebaran_text (script_of script.now) (graph_of graph.now)) }
{
    let mut text = Buffer::new(alloc);
    match push_aldebaran(script, graph, &mut text) {
        Ok(()) => Ok(text.bytes),
        Err(_) => Err(Memory),
    }
}

// The text for Graphviz, with what becomes of each state.
fn graphviz<A: AllocHandle>(
    alloc: A,
    script: &Script<A>,
    graph: &Graph<A>,
) -> Result<Vec<u8, A>, Memory>
    requires { IsGraphIn (script_of script.now) (graph_of graph.now) }
    ensures { IfOk result (λ text.
        IsDrawing (script_of script.now) (graph_of graph.now) text.items) }
{
    let fates = fates_of(alloc, graph)?;
    let mut text = Buffer::new(alloc);
    match push_graphviz(script, &fates, graph, &mut text) {
        Ok(()) => Ok(text.bytes),
        Err(_) => Err(Memory),
    }
}
