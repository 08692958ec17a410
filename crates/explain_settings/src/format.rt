//! The formats in which is told, by their words.

ghost use Rattle.std.specs.Prelude.{◌≡◌, ◌≢◌, IfSome, None};
ghost use Rattle.explain_settings.specs.CommandLine.{format_word};
ghost use Rattle.explain_settings.specs.declared.format.Format.{Format};

/// How it is told of assertions, and of what is refused.
#[derive(Clone, Copy, Debug, PartialEq, Eq)]
pub enum Format {
    /// In words.
    Text,
    /// By an object of JSON, a line each.
    Json,
}

/// The format that the word names, if it names one.
pub(crate) fn format_of(word: &str) -> Option<Format>
    ensures known { IfSome result (λ format. word.now ≡ format_word format) }
    ensures unknown { result ≡ None → (format : Format) → word.now ≢ format_word format }
{
    if word == "text" {
        Some(Format::Text)
    } else if word == "json" {
        Some(Format::Json)
    } else {
        None
    }
}
