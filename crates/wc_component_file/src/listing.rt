//! A listing of the core modules of a component, by what they import and what they export.

ghost use Rattle.std.specs.Prelude.{◌≡◌, ◌≢◌, ◌≤◌, ◌++◌, IfOk, OnOk, map, min, string_bytes, take};
ghost use Rattle.wc_maps.specs.Texts.{text_of as bytes_of};
ghost use Rattle.wc_read.specs.Exports.{export_value};
ghost use Rattle.wc_read.specs.Imports.{import_value};
ghost use Rattle.wc_read.specs.Modules.{module_value};
ghost use Rattle.wc_read.specs.declared.fault.ReadFault.{ReadFault};
ghost use Rattle.wc_component_file.specs.Files.{core_module_view, file_view};
ghost use Rattle.wc_component_file.specs.Listing.{AreLines, IsLineOf, IsListing, export_names, exports_after, exports_text, import_modules, imports_text, line_of, more_modules, more_names, names_text, read_line, said_text, unread_line, words_text};

use crate::file::{ComponentFile, CoreModule};
use std::alloc::{AllocError, Global};
use wc_maps::OrderedMap;
use wc_read::{Export, Import, Module, ReadFault, read_module};
use wc_texts::text_of;
use wc_why_text::word;

/// How many modules are listed at most.
const LISTED_MODULES: usize = 16;

/// How many names are listed of a module's imports at most, and how many of its exports.
const LISTED_NAMES: usize = 8;

/// The core modules of a file, each in a line: from which modules it imports, and what it exports. A line begins with
/// a newline and two blanks: `\n  core module 0: imports from ad wasi:x/y; exports run other`.
///
/// Of the names in a line eight are listed at most, and of the modules sixteen; then the line says how many more there
/// are, or the last line does. A name is escaped, and a blank in it is `\u{20}` (`wc_why_text::word`). Of a module that
/// can't be read, the line has the fault.
///
/// # Errors
///
/// `AllocError`: an allocation failed.
pub fn modules_listing(alloc: Global, file: &ComponentFile<'_>) -> Result<String, AllocError>
    ensures { IfOk result (λ s. IsListing (file_view file.now).modules (string_bytes s)) }
{
    let mut text = lines(alloc, &file.modules)?;
    push_more_modules(file.modules.len(), &mut text)?;
    Ok(text)
}

/// The lines of the first modules.
fn lines(alloc: Global, modules: &[CoreModule<'_>]) -> Result<String, AllocError>
    ensures { IfOk result (λ s. AreLines
        (map core_module_view (take 16 modules.now)) (string_bytes s)) }
{
    let mut text = String::new(alloc);
    for position in 0..at_most(LISTED_MODULES, modules.len()) {
        let line = module_line(alloc, position, modules[position].bytes)?;
        text.push_str(&line)?;
    }
    Ok(text)
}

/// The smaller of a limit and a count.
fn at_most(limit: usize, count: usize) -> usize
    ensures within { result ≤ count }
    ensures value { result ≡ min limit count }
{
    if limit < count { limit } else { count }
}

/// Appends how many modules are not listed.
fn push_more_modules(count: usize, out: &mut String) -> Result<(), AllocError>
    ensures { OnOk result (string_bytes out.new ≡ string_bytes out.old ++ more_modules count) }
{
    if count <= LISTED_MODULES {
        return Ok(());
    }
    let more = count - LISTED_MODULES;
    if more == 1 {
        return out.push_str("\n  1 more core module");
    }
    write!(out, "\n  {more} more core modules")
}

/// The line of the module at a position.
fn module_line(alloc: Global, position: usize, bytes: &[u8]) -> Result<String, AllocError>
    ensures { IfOk result (λ s. IsLineOf position bytes.now (string_bytes s)) }
{
    match read_module(alloc, bytes) {
        Ok(module) => read_line(alloc, position, &module),
        Err(fault) => unread_line(alloc, position, fault),
    }
}

/// The line of a module that can't be read.
fn unread_line(alloc: Global, position: usize, fault: ReadFault) -> Result<String, AllocError>
    ensures line { IfOk result (λ s. string_bytes s ≡ unread_line position fault) }
    ensures failed { IfOk result (λ s. fault ≢ ReadFault.Memory) }
{
    if fault == ReadFault::Memory {
        return Err(AllocError);
    }
    let fault = text_of(alloc, &fault)?;
    format!(in alloc; "\n  core module {position}: Read: {fault}")
}

/// The line of a module.
fn read_line(alloc: Global, position: usize, module: &Module<'_>) -> Result<String, AllocError>
    ensures { IfOk result (λ s. string_bytes s ≡ read_line position (module_value module.now)) }
{
    let from = import_modules(alloc, &module.imports)?;
    let exports = export_names(alloc, &module.exports)?;
    let said = said_text(alloc, &from, &exports)?;
    line_of(alloc, position, &said)
}

/// The line that says this of the module at a position.
fn line_of(alloc: Global, position: usize, said: &str) -> Result<String, AllocError>
    ensures { IfOk result (λ s. string_bytes s ≡ line_of position said.now) }
{
    format!(in alloc; "\n  core module {position}: {said}")
}

/// The names of modules that are imported from, and the names of exports.
fn said_text(alloc: Global, from: &[&str], exports: &[&str]) -> Result<String, AllocError>
    ensures { IfOk result (λ s. string_bytes s
        ≡ said_text (map bytes_of from.now) (map bytes_of exports.now)) }
{
    match from {
        [] => exports_text(alloc, exports),
        [_, ..] => imports_text(alloc, from, exports),
    }
}

/// The names of exports, where nothing is imported.
fn exports_text(alloc: Global, exports: &[&str]) -> Result<String, AllocError>
    ensures { IfOk result (λ s. string_bytes s ≡ exports_text (map bytes_of exports.now)) }
{
    match exports {
        [] => String::from_str(alloc, "no imports, no exports"),
        [_, ..] => {
            let names = names_text(alloc, exports)?;
            format!(in alloc; "exports{names}")
        }
    }
}

/// The names of modules that are imported from, and then the names of exports.
fn imports_text(alloc: Global, from: &[&str], exports: &[&str]) -> Result<String, AllocError>
    ensures { IfOk result (λ s. string_bytes s
        ≡ imports_text (map bytes_of from.now) (map bytes_of exports.now)) }
{
    let from = names_text(alloc, from)?;
    let after = exports_after(alloc, exports)?;
    format!(in alloc; "imports from{from}{after}")
}

/// The names of exports, after what is imported.
fn exports_after(alloc: Global, exports: &[&str]) -> Result<String, AllocError>
    ensures { IfOk result (λ s. string_bytes s ≡ exports_after (map bytes_of exports.now)) }
{
    match exports {
        [] => Ok(String::new(alloc)),
        [_, ..] => {
            let names = names_text(alloc, exports)?;
            format!(in alloc; "; exports{names}")
        }
    }
}

/// The first of these names, each after a blank, and how many more there are.
fn names_text(alloc: Global, names: &[&str]) -> Result<String, AllocError>
    ensures { IfOk result (λ s. string_bytes s ≡ names_text (map bytes_of names.now)) }
{
    let words = words_text(alloc, names)?;
    let more = more_names(alloc, names.len())?;
    format!(in alloc; "{words}{more}")
}

/// The first of these names, each after a blank.
fn words_text(alloc: Global, names: &[&str]) -> Result<String, AllocError>
    ensures { IfOk result (λ s. string_bytes s ≡ words_text (take 8 (map bytes_of names.now))) }
{
    let mut text = String::new(alloc);
    for index in 0..at_most(LISTED_NAMES, names.len()) {
        let word = word(alloc, names[index])?;
        text.push_str(" ")?;
        text.push_str(&word)?;
    }
    Ok(text)
}

/// How many names are not listed.
fn more_names(alloc: Global, count: usize) -> Result<String, AllocError>
    ensures { IfOk result (λ s. string_bytes s ≡ more_names count) }
{
    if count <= LISTED_NAMES {
        return Ok(String::new(alloc));
    }
    let more = count - LISTED_NAMES;
    format!(in alloc; " and {more} more")
}

/// The names of the modules that are imported from, in order, each once.
fn import_modules<'a>(alloc: Global, imports: &[Import<'a>]) -> Result<Vec<&'a str>, AllocError>
    ensures { IfOk result (λ v. map bytes_of v.items
        ≡ import_modules (map import_value imports.now)) }
{
    let mut seen = OrderedMap::new(alloc);
    for import in imports {
        seen.insert(import.module, ())?;
    }
    keys(alloc, seen.entries())
}

/// The keys of entries.
fn keys<'a>(alloc: Global, entries: &[(&'a str, ())]) -> Result<Vec<&'a str>, AllocError>
    ensures { IfOk result (λ v. map bytes_of v.items ≡ map (λ e. e.0.now) entries.now) }
{
    let mut keys = Vec::new(alloc);
    for entry in entries {
        keys.push(entry.0)?;
    }
    Ok(keys)
}

/// The names of exports.
fn export_names<'a>(alloc: Global, exports: &[Export<'a>]) -> Result<Vec<&'a str>, AllocError>
    ensures { IfOk result (λ v. map bytes_of v.items
        ≡ export_names (map export_value exports.now)) }
{
    let mut names = Vec::new(alloc);
    for export in exports {
        names.push(export.name)?;
    }
    Ok(names)
}
