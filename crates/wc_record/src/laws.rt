//! Laws of what is written: contracts of functions that do nothing when they run.

ghost use Rattle.wc_record.specs.Laws.{ArgumentsReadBack, ExportersReadBack, InstancesReadBack, ItemsReadBack, KindsReadBack, LibrariesReadBack, LibraryTextsReadBack};

/// Library information that is written as a JSON value is read by `wc_json` as the same library information, and so is
/// each of its parts. So the definition of what is written loses nothing of it. It does nothing when it runs.
pub fn libraries_read_back()
    ensures libraries { LibrariesReadBack }
    ensures arguments { ArgumentsReadBack }
    ensures instances { InstancesReadBack }
    ensures items { ItemsReadBack }
    ensures exporters { ExportersReadBack }
    ensures kinds { KindsReadBack }
{}

/// Library information that is written as a text, without spaces and with the shortest escapes, is read by `wc_json` as
/// the same library information. It does nothing when it runs.
pub fn library_texts_read_back()
    ensures { LibraryTextsReadBack }
{}
