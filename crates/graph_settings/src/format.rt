//! The formats of graphs, by their words.

ghost use Rattle.std.specs.Prelude.{◌≡◌, ◌≢◌, IfSome, None};
ghost use Rattle.graph_settings.specs.CommandLine.{format_word};
ghost use Rattle.graph_settings.specs.declared.format.Format.{Format};

/// How a graph is printed.
#[derive(Clone, Copy, Debug, PartialEq, Eq)]
pub enum Format {
    /// As mCRL2, CADP and LTSmin read it.
    Aldebaran,
    /// As Graphviz draws it.
    Graphviz,
}

/// The format that the word names, if it names one.
pub(crate) fn format_of(word: &str) -> Option<Format>
    ensures known { IfSome result (λ format. word.now ≡ format_word format) }
    ensures unknown { result ≡ None → (format : Format) → word.now ≢ format_word format }
{
    if word == "aut" {
        Some(Format::Aldebaran)
    } else if word == "dot" {
        Some(Format::Graphviz)
    } else {
        None
    }
}
