//! What the words of the command line ask for.

/// What is asked for.
#[derive(Clone, Copy, Debug, PartialEq, Eq)]
pub(crate) enum Request {
    /// A language server.
    Lsp,
    /// A debug adapter.
    Dap,
    /// How the program is called.
    Help,
    /// Which version it is.
    Version,
}

/// What the words of the command line, of which the first is the name of the program, ask for: nothing where they
/// are wrong.
pub(crate) fn request_of(words: &[String]) -> Option<Request> {
    let [_, word] = words else {
        return None;
    };
    match word.as_str() {
        "lsp" => Some(Request::Lsp),
        "dap" => Some(Request::Dap),
        "--help" | "-h" => Some(Request::Help),
        "--version" | "-V" => Some(Request::Version),
        _ => None,
    }
}
