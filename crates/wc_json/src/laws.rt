//! Laws of the reader: contracts of functions that do nothing when they run.

ghost use Rattle.wc_json.specs.Laws.{DocumentsReadBack, TextsReadBack};
ghost use Rattle.wc_json.specs.RepeatedMembers.{RepeatsAreThere};

/// A document that is written as a JSON value, in the form of wit-parser, is read back as the same document. So the
/// definition of reading loses nothing of a document. The law requires that its ids are below 2^32, and that no two
/// keys of a map have the same text. An id that is a key must be the id of its item, and no plain key may have the
/// text of its own interface's id. The name of a package must be cut where it was put together. The law does nothing
/// when it runs.
pub fn documents_read_back()
    ensures { DocumentsReadBack }
{}

/// A document that is written as a text, as `json::Writer` prints the tokens of its JSON value, is
/// read back as the same document, unless memory runs out. It does nothing when it runs.
pub fn texts_read_back()
    ensures { TextsReadBack }
{}

/// If an object of a JSON value has two members with one name, a first repeated member exists: so the path that
/// [`repeated_member`](crate::repeated_member) gives is the path of a repeated member. The law does nothing when it
/// runs.
pub fn repeats_are_there()
    ensures { RepeatsAreThere }
{}
