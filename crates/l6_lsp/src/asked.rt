//! The requests that are answered, by the names of their methods.

ghost use Rattle.std.specs.Prelude.{◌≡◌};
ghost use Rattle.l6_lsp.specs.Asked as spec;

/// What a request asks for.
#[derive(Clone, Copy, Debug, PartialEq, Eq)]
pub(crate) enum Asked {
    /// The labels of a deck.
    Symbols,
    /// Something about lines of a deck.
    Lines(LinesAsked),
    /// Something about a place in a deck.
    Place(PlaceAsked),
}

/// What is asked about lines.
#[derive(Clone, Copy, Debug, PartialEq, Eq)]
pub(crate) enum LinesAsked {
    /// What may be written in place of what is wrong.
    Fixes,
    /// The numbers of statements.
    Hints,
}

/// What is asked about a place.
#[derive(Clone, Copy, Debug, PartialEq, Eq)]
pub(crate) enum PlaceAsked {
    /// What is said of what is there.
    Hover,
    /// Where the label there is given.
    Definition,
    /// Where it is given and named.
    References,
    /// The same, on the page that is shown.
    Highlights,
    /// Another name for it.
    Rename,
    /// What may be written there.
    Completion,
}

/// What a method asks for: nothing where there is no such method.
pub(crate) fn asked_by(method: &str) -> Option<Asked>
    ensures { result ≡ spec.asked_by method.now }
{
    match method {
        "textDocument/documentSymbol" => Some(Asked::Symbols),
        "textDocument/codeAction" => Some(Asked::Lines(LinesAsked::Fixes)),
        "textDocument/inlayHint" => Some(Asked::Lines(LinesAsked::Hints)),
        "textDocument/hover" => Some(Asked::Place(PlaceAsked::Hover)),
        "textDocument/definition" => Some(Asked::Place(PlaceAsked::Definition)),
        "textDocument/references" => Some(Asked::Place(PlaceAsked::References)),
        "textDocument/documentHighlight" => Some(Asked::Place(PlaceAsked::Highlights)),
        "textDocument/rename" => Some(Asked::Place(PlaceAsked::Rename)),
        "textDocument/completion" => Some(Asked::Place(PlaceAsked::Completion)),
        _ => None,
    }
}
