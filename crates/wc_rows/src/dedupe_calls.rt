//! Calls of `wc_dedupe`, and calls that also read the renamed module.

use crate::modules::put_module;
use std::alloc::Global;
use std::borrow::CowSlice;
use wc_dedupe::{DedupeFault, ModuleImportMap};
use wc_lines::input::{Stop, bytes_of};
use wc_lines::lines::Lines;
use wc_lines::rows::Row;
use wc_lines::values::{put_bytes_lines, put_fault, put_import};
use wc_read::{Import, read_imports, read_module};

/// The answer of deduping: a module, and the map of its imports.
pub(crate) type Deduped<'a> = Result<(CowSlice<'a, u8>, Option<ModuleImportMap>), DedupeFault>;

/// The bytes, whether they are borrowed, and the map.
pub(crate) fn put_deduped(answer: Deduped<'_>, out: &mut Lines) {
    match answer {
        Ok((bytes, map)) => {
            let word = match &bytes {
                CowSlice::Borrowed(_) => "borrowed",
                CowSlice::Owned(_) => "owned",
            };
            put_bytes_lines(out, word, bytes.as_slice());
            put_renames(out, &map);
        }
        Err(fault) => put_fault(out, fault),
    }
}

/// A line for each renamed import: its module, its original name and the new one.
fn put_renames(out: &mut Lines, map: &Option<ModuleImportMap>) {
    let Some(map) = map else {
        return out.push_str("no map\n");
    };
    let renames = map.renames();
    for index in 0..renames.len() {
        let rename = renames.at(index);
        out.quoted("renamed ", rename.module);
        out.quoted(" ", rename.original);
        out.quoted(" ", rename.name);
        out.end();
    }
}

/// `read_deduped`: the module that the bytes encode after renaming. `dedupe_imports`: its imports, with their
/// original names.
pub(crate) fn put_reread(alloc: Global, call: &str, bytes: &[u8], out: &mut Lines) {
    match ModuleImportMap::new(alloc, CowSlice::Borrowed(bytes)) {
        Ok((deduped, map)) => match read_module(alloc, deduped.as_slice()) {
            Ok(module) if call == "dedupe_imports" => put_originals(out, &map, &module.imports),
            Ok(module) => put_module(out, &module),
            Err(fault) => put_fault(out, fault),
        },
        Err(fault) => put_fault(out, fault),
    }
}

/// A line for each import, with its original name if it was renamed.
fn put_originals(out: &mut Lines, map: &Option<ModuleImportMap>, imports: &[Import<'_>]) {
    for import in imports {
        put_import(out, import);
        if let Some(map) = map {
            if let Some(original) = map.original_name(import) {
                out.quoted(" was ", original);
            }
        }
        out.end();
    }
}

/// `original_names BYTES`: the original names of the imports in the content of a section, by the map of a module. The
/// arguments are the bytes of the module.
pub(crate) fn answer_originals(alloc: Global, row: &Row<'_>, out: &mut Lines) -> Result<(), Stop> {
    let bytes = bytes_of(alloc, &row.arguments, out)?;
    let content = bytes_of(alloc, &row.input, out)?;
    match ModuleImportMap::new(alloc, CowSlice::Borrowed(&bytes)) {
        Ok((_deduped, map)) => match read_imports(alloc, &content) {
            Ok(imports) => put_originals(out, &map, &imports),
            Err(fault) => put_fault(out, fault),
        },
        Err(fault) => put_fault(out, fault),
    }
    Ok(())
}
