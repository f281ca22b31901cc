//! The decks that an editor has open, and what is answered about them.

ghost use Rattle.std.specs.Prelude.{codes, IfOk};
ghost use Rattle.serde_json.specs.View.{view};
ghost use Rattle.l6_lsp.specs.Decks as spec;
ghost use Rattle.l6_lsp.specs.Parameters.{text_at, uri_of, version_of};
ghost use Rattle.l6_lsp.specs.Serving.{IsEmpty};
ghost use Rattle.l6_lsp.specs.inner.Answers.{IsAnswer, IsLinesAnswer, IsPlaceAnswer};

use crate::asked::{Asked, LinesAsked, PlaceAsked, asked_by};
use crate::completion::completion;
use crate::diagnostics::{published, withdrawn};
use crate::document::{Document, after_changes};
use crate::fixes::fixes;
use crate::hover::hover;
use crate::labels::{definition, highlights, references, symbols};
use crate::numbers::hints;
use crate::parameters::{range_at, spot_in, text_at, uri_of, version_of};
use crate::place::Place;
use crate::renaming::rename;
use indexmap::IndexMap;
use l6_rpc::{Note, OutOfMemory, Refusal, Service};
use serde_json::{Value, json};
use std::alloc::Global;

/// The decks that an editor has open, by the names of their documents.
#[derive(Drop)]
pub struct Decks {
    documents: IndexMap<String, Document>,
}

impl Decks {
    /// No deck is open.
    pub fn new(alloc: Global) -> Self
        ensures { IsEmpty result }
    {
        Decks {
            documents: IndexMap::new(alloc),
        }
    }

    /// A document is opened: it has the text that the message gives.
    fn open(&mut self, alloc: Global, message: &Value) -> Result<Option<Note>, OutOfMemory>
        ensures { IfOk result (λ it. spec.Opens self.old (uri_of (view message.now))
            (text_at (codes "/params/textDocument/text") (view message.now))
            (version_of (view message.now)) it self.new) }
    {
        let (Some(uri), Some(text)) = (
            uri_of(message),
            text_at(message, "/params/textDocument/text"),
        ) else {
            return Ok(None);
        };
        let text = text.as_bytes().to_vec(alloc)?;
        self.store(alloc, uri, version_of(message), text)
    }

    /// A document is changed.
    fn change(&mut self, alloc: Global, message: &Value) -> Result<Option<Note>, OutOfMemory>
        ensures { IfOk result (λ it. spec.Changes self.old (uri_of (view message.now))
            (view message.now) it self.new) }
    {
        let Some(uri) = uri_of(message) else {
            return Ok(None);
        };
        let Some(document) = self.documents.get(uri) else {
            return Ok(None);
        };
        let text = after_changes(alloc, document.text.as_slice(), message)?;
        self.store(alloc, uri, version_of(message), text)
    }

    /// Has a document of this version and text, and says what is found in it.
    fn store(
        &mut self,
        alloc: Global,
        uri: &str,
        version: u64,
        text: Vec<u8>,
    ) -> Result<Option<Note>, OutOfMemory>
        ensures { IfOk result (λ it. spec.IsStored self.old uri.now version text.items it self.new) }
    {
        let document = Document { version, text };
        let note = published(alloc, uri, &document)?;
        let key = String::from_str(alloc, uri)?;
        drop(self.documents.insert(key, document)?);
        Ok(Some(note))
    }

    /// A document is closed.
    fn close(&mut self, alloc: Global, message: &Value) -> Result<Option<Note>, OutOfMemory>
        ensures { IfOk result (λ it. spec.Closes self.old (uri_of (view message.now)) it self.new) }
    {
        let Some(uri) = uri_of(message) else {
            return Ok(None);
        };
        let note = withdrawn(alloc, uri)?;
        drop(self.documents.shift_remove(uri));
        Ok(Some(note))
    }
}

/// What is answered to what is asked of a document.
fn answer_of(
    alloc: Global,
    asked: Asked,
    uri: &str,
    document: &Document,
    message: &Value,
) -> Result<Result<Value, Refusal>, OutOfMemory>
    ensures { IfOk result (λ outcome. IfOk outcome
        (IsAnswer asked uri.now document.now.text.items (view message.now))) }
{
    match asked {
        Asked::Symbols => Ok(Ok(symbols(alloc, document.deck())?)),
        Asked::Lines(asked) => match range_at(message, "/params/range") {
            None => Ok(Err(Refusal::NoParameters)),
            Some((start, end)) => {
                let lines = (start.line, end.line);
                Ok(Ok(answer_on(alloc, asked, uri, document, lines)?))
            }
        },
        Asked::Place(asked) => match message.pointer("/params/position").and_then(spot_in) {
            None => Ok(Err(Refusal::NoParameters)),
            Some(spot) => {
                let place = Place::of(alloc, uri, document, spot)?;
                answer_at(alloc, asked, uri, document, &place, message)
            }
        },
    }
}

/// What is answered to what is asked of the lines from one to another.
fn answer_on(
    alloc: Global,
    asked: LinesAsked,
    uri: &str,
    document: &Document,
    lines: (u64, u64),
) -> Result<Value, OutOfMemory>
    ensures { IfOk result (IsLinesAnswer asked uri.now document.now.text.items) }
{
    let (first, last) = lines;
    match asked {
        LinesAsked::Fixes => fixes(alloc, uri, document, first, last),
        LinesAsked::Hints => hints(alloc, document.deck(), first, last),
    }
}

/// What is answered to what is asked of a place.
fn answer_at(
    alloc: Global,
    asked: PlaceAsked,
    uri: &str,
    document: &Document,
    place: &Place<'_>,
    message: &Value,
) -> Result<Result<Value, Refusal>, OutOfMemory>
    ensures { IfOk result (λ outcome. IfOk outcome
        (IsPlaceAnswer asked uri.now document.now.text.items (view message.now))) }
{
    match asked {
        PlaceAsked::Hover => Ok(Ok(hover(alloc, place)?)),
        PlaceAsked::Definition => Ok(Ok(definition(alloc, place)?)),
        PlaceAsked::Highlights => Ok(Ok(highlights(alloc, place)?)),
        PlaceAsked::Completion => Ok(Ok(completion(alloc, place)?)),
        PlaceAsked::Rename => {
            rename(
                alloc,
                uri,
                document,
                place,
                text_at(message, "/params/newName"),
            )
        }
        PlaceAsked::References => {
            let has_given = message
                .pointer("/params/context/includeDeclaration")
                .and_then(Value::as_bool)
                .unwrap_or(true);
            Ok(Ok(references(alloc, place, has_given)?))
        }
    }
}

impl Service for Decks {
    ghost IsAble = { spec.IsAble };

    ghost Answers = { spec.Answers };

    ghost Notes = { spec.Notes };

    fn abilities(&self, alloc: Global) -> Result<Value, OutOfMemory> {
        let value = json!(in alloc; {
            "capabilities": {
                "positionEncoding": "utf-16",
                "textDocumentSync": {"openClose": true, "change": 2},
                "hoverProvider": true,
                "definitionProvider": true,
                "referencesProvider": true,
                "documentHighlightProvider": true,
                "documentSymbolProvider": true,
                "renameProvider": true,
                "completionProvider": {"triggerCharacters": ["(", ","]},
                "inlayHintProvider": true,
                "codeActionProvider": {"codeActionKinds": ["quickfix"]}
            },
            "serverInfo": {"name": "l6"}
        })?;
        Ok(value)
    }

    fn answer(
        &self,
        alloc: Global,
        method: &str,
        message: &Value,
    ) -> Result<Result<Value, Refusal>, OutOfMemory> {
        let Some(asked) = asked_by(method) else {
            return Ok(Err(Refusal::NoMethod));
        };
        let Some(uri) = uri_of(message) else {
            return Ok(Err(Refusal::NoParameters));
        };
        match self.documents.get(uri) {
            None => Ok(Err(Refusal::NoParameters)),
            Some(document) => answer_of(alloc, asked, uri, document, message),
        }
    }

    fn note(
        &mut self,
        alloc: Global,
        method: &str,
        message: &Value,
    ) -> Result<Option<Note>, OutOfMemory> {
        match method {
            "textDocument/didOpen" => self.open(alloc, message),
            "textDocument/didChange" => self.change(alloc, message),
            "textDocument/didClose" => self.close(alloc, message),
            _ => Ok(None),
        }
    }
}
