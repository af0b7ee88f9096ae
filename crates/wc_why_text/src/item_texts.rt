//! The texts of items, of the beginnings of paths, and of imports.

ghost use Rattle.std.specs.Prelude.{◌≡◌, IfOk, string_bytes};
ghost use Rattle.std.specs.Option.{option_map};
ghost use Rattle.wc_paths.specs.PathRoots.{root_view};
ghost use Rattle.wc_why.specs.Texts.{text_of};
ghost use Rattle.wc_why_text.specs.ItemTexts.{data_text, elements_text, import_line, importer_text, item_text, line_of, module_root_text, root_text, space_name, unfollowed_text};

use crate::texts::{two_words, word};
use std::alloc::{AllocError, Global};
use wc_paths::PathRoot;
use wc_read::Space;
use wc_texts::escaped;
use wc_why::Unfollowed;

/// An item: its kind (`type`, `func`, `table`, `memory` or `global`), its index, and its name, if it has one, escaped
/// (`wc_texts::escaped`).
///
/// # Errors
///
/// `AllocError`: an allocation failed.
pub fn item_text(
    alloc: Global,
    space: Space,
    index: usize,
    name: Option<&str>,
) -> Result<String, AllocError>
    ensures { IfOk result (λ s. string_bytes s
        ≡ item_text space index (option_map text_of name.entry)) }
{
    let space = space_name(space);
    match name {
        Some(name) => {
            let name = escaped(alloc, name)?;
            format!(in alloc; "{space} {index} {name}")
        }
        None => format!(in alloc; "{space} {index}"),
    }
}

/// The word for an item of a space.
pub(crate) fn space_name(space: Space) -> &'static str
    ensures { result.now ≡ space_name space }
{
    match space {
        Space::Types => "type",
        Space::Funcs => "func",
        Space::Tables => "table",
        Space::Memories => "memory",
        Space::Globals => "global",
    }
}

/// An element segment: `elem`, and its index.
pub(crate) fn elements_text(alloc: Global, index: usize) -> Result<String, AllocError>
    ensures { IfOk result (λ s. string_bytes s ≡ elements_text index) }
{
    format!(in alloc; "elem {index}")
}

/// A data segment: `data`, and its index.
pub(crate) fn data_text(alloc: Global, index: usize) -> Result<String, AllocError>
    ensures { IfOk result (λ s. string_bytes s ≡ data_text index) }
{
    format!(in alloc; "data {index}")
}

/// A module of a component: `main`, or `adapter ADAPTER`, the name as a word.
///
/// # Errors
///
/// `AllocError`: an allocation failed.
pub(crate) fn importer_text(alloc: Global, adapter: Option<&str>) -> Result<String, AllocError>
    ensures { IfOk result (λ s. string_bytes s ≡ importer_text (option_map text_of adapter.entry)) }
{
    match adapter {
        Some(name) => {
            let name = word(alloc, name)?;
            format!(in alloc; "adapter {name}")
        }
        None => String::from_str(alloc, "main"),
    }
}

/// The line of an import.
pub(crate) fn import_line(
    alloc: Global,
    adapter: Option<&str>,
    from: &str,
    name: &str,
) -> Result<String, AllocError>
    ensures { IfOk result (λ s. string_bytes s
        ≡ import_line (option_map text_of adapter.entry) from.now name.now) }
{
    let importer = importer_text(alloc, adapter)?;
    let names = two_words(alloc, from, name)?;
    format!(in alloc; "  {importer} imports {names}\n")
}

/// Where a path begins in a module that stands alone: `export NAME`, the name escaped (`wc_texts::escaped`), `start`,
/// `fills table T` or `fills memory M`.
///
/// # Errors
///
/// `AllocError`: an allocation failed.
pub(crate) fn root_text(alloc: Global, root: PathRoot<'_>) -> Result<String, AllocError>
    ensures { IfOk result (λ s. string_bytes s ≡ root_text (root_view root.entry)) }
{
    match root {
        PathRoot::Export(name) => {
            let name = escaped(alloc, name)?;
            format!(in alloc; "export {name}")
        }
        PathRoot::Start => String::from_str(alloc, "start"),
        PathRoot::FillsTable(index) => format!(in alloc; "fills table {index}"),
        PathRoot::FillsMemory(index) => format!(in alloc; "fills memory {index}"),
    }
}

/// Where a path begins in a module of a component, after the module: `exports NAME`, the name as a word, and the others as
/// they are.
pub(crate) fn module_root_text(alloc: Global, root: PathRoot<'_>) -> Result<String, AllocError>
    ensures { IfOk result (λ s. string_bytes s ≡ module_root_text (root_view root.entry)) }
{
    match root {
        PathRoot::Export(name) => {
            let name = word(alloc, name)?;
            format!(in alloc; "exports {name}")
        }
        PathRoot::Start => String::from_str(alloc, "start"),
        PathRoot::FillsTable(index) => format!(in alloc; "fills table {index}"),
        PathRoot::FillsMemory(index) => format!(in alloc; "fills memory {index}"),
    }
}

/// Why no path through the main module is shown: `main never uses it`, or `main is not followed: ` and what can't be read.
///
/// # Errors
///
/// `AllocError`: an allocation failed.
pub(crate) fn unfollowed_text(alloc: Global, why: Unfollowed) -> Result<String, AllocError>
    ensures { IfOk result (λ s. string_bytes s ≡ unfollowed_text why) }
{
    match why {
        Unfollowed::Unreached => String::from_str(alloc, "main never uses it"),
        Unfollowed::Body(index) => {
            format!(in alloc; "main is not followed: body of function {index}")
        }
        Unfollowed::Section(section) => {
            let name = section.name();
            format!(in alloc; "main is not followed: {name}")
        }
    }
}

/// A text as a line, after two blanks.
pub(crate) fn line_of(alloc: Global, text: &str) -> Result<String, AllocError>
    ensures { IfOk result (λ s. string_bytes s ≡ line_of text.now) }
{
    format!(in alloc; "  {text}\n")
}
