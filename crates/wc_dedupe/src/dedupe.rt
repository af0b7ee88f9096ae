//! From a module's bytes to the bytes of a module in which no two imports share a module and a name.

ghost use Rattle.std.specs.Prelude.{◌≡◌, ◌≢◌, [], IfOk, IfErr, IfSome, IsNone, Ok, None};
ghost use Rattle.std.specs.Cow.{cow_slice_items};
ghost use Rattle.wc_read.specs.Sections.{IsComponent};
ghost use Rattle.wc_dedupe.specs.Dedupe.{IsDeduped, IsDedupeCause, IsDedupePlace, renames_in};
ghost use Rattle.wc_dedupe.specs.ParsedSections.{imports_of, parsed_values};
ghost use Rattle.wc_dedupe.specs.Renaming.{originals, IsRenaming};

use crate::fault::DedupeFault;
use crate::parsed_sections::{ParsedSection, import_names, parse_module, write_sections};
use crate::renaming::{ModuleImportMap, Renaming, rename_all};
use std::alloc::{AllocError, Global};
use std::borrow::CowSlice;
use wc_read::{ReadFault, ReadPlace, imports_place};
use wc_texts::Refused;

impl ModuleImportMap {
    /// Renames the imports of a module so that no two share a module and a name.
    ///
    /// Names are settled from the first import to the last. An import keeps its name where no earlier import of
    /// its module has that name by then. Else its name becomes the original name and ` [v`, a number and `]`
    /// after it: the least number from 2 whose name no earlier import of its module has by then. Three imports
    /// `a.f` become `a.f`, `a.f [v2]` and `a.f [v3]`.
    ///
    /// - For a component the answer is always `Ok`, with the same bytes and `None`.
    /// - Where no import repeats, the bytes are the same, borrowed ones borrowed, and the map is `None`.
    /// - Else the import sections (WebAssembly core specification, 5.5.5) are written with the new names, and all
    ///   other sections (5.5.2) have the same contents, in the same order. Numbers in import sections and the
    ///   sizes of sections are minimal LEB128. The map has at least one rename.
    ///
    /// Only the cut into sections, and the import sections, are checked.
    ///
    /// # Errors
    ///
    /// - `Read`: the bytes are no component, and can't be cut into sections or have a malformed import section.
    ///   It carries the reader's fault, never `Memory` or `Component`.
    /// - `TooLarge`: an import repeats, and a section of the renamed module has a content of 2^32 bytes or more.
    /// - `Memory`: an allocation failed.
    ///
    /// `wasm` is dropped on an error.
    pub fn new<'a>(
        alloc: Global,
        wasm: CowSlice<'a, u8>,
    ) -> Result<(CowSlice<'a, u8>, Option<ModuleImportMap>), DedupeFault>
        ensures dedupe { IfOk result (λ r. IsDeduped
            (cow_slice_items wasm.entry) (cow_slice_items r.0) (renames_in r.1)) }
        ensures borrowed { IfOk result (λ r. IsNone r.1 → r.0 ≡ wasm.entry) }
        ensures some { IfOk result (λ r. IfSome r.1 (λ map. map ≢ [])) }
        ensures component { IsComponent (cow_slice_items wasm.entry)
            → result ≡ Ok (wasm.entry, None) }
        ensures refused { IfErr result (IsDedupeCause (cow_slice_items wasm.entry)) }
    {
        match dedupe(alloc, wasm.as_slice())? {
            Some((bytes, map)) => Ok((CowSlice::Owned(bytes), Some(map))),
            None => Ok((wasm, None)),
        }
    }

    /// Renames imports as `new` does, and says where bytes that can't be read stop to be right.
    ///
    /// # Errors
    ///
    /// Those of `new`. A `Read` has a place, and no other fault has one. `Memory` comes too where there is no memory to
    /// find it.
    ///
    /// `wasm` is dropped on an error.
    pub fn new_explained<'a>(
        alloc: Global,
        wasm: CowSlice<'a, u8>,
    ) -> Result<(CowSlice<'a, u8>, Option<ModuleImportMap>), Refused<DedupeFault, ReadPlace>>
        ensures dedupe { IfOk result (λ r. IsDeduped
            (cow_slice_items wasm.entry) (cow_slice_items r.0) (renames_in r.1)) }
        ensures borrowed { IfOk result (λ r. IsNone r.1 → r.0 ≡ wasm.entry) }
        ensures some { IfOk result (λ r. IfSome r.1 (λ map. map ≢ [])) }
        ensures component { IsComponent (cow_slice_items wasm.entry)
            → result ≡ Ok (wasm.entry, None) }
        ensures refused { IfErr result (λ r. IsDedupeCause (cow_slice_items wasm.entry) r.fault) }
        // The place is within the bytes, and in the section that it names.
        ensures place { IfErr result (λ r.
            IsDedupePlace (cow_slice_items wasm.entry) r.fault r.place) }
    {
        match dedupe(alloc, wasm.as_slice()) {
            Ok(Some((renamed, map))) => Ok((CowSlice::Owned(renamed), Some(map))),
            Ok(None) => Ok((wasm, None)),
            Err(fault) => Err(explained(alloc, wasm.as_slice(), fault)),
        }
    }
}

/// A fault of dedupe, and its place.
fn explained(alloc: Global, bytes: &[u8], fault: DedupeFault) -> Refused<DedupeFault, ReadPlace>
    requires { IsDedupeCause bytes.now fault }
    ensures cause { IsDedupeCause bytes.now result.fault }
    ensures place { IsDedupePlace bytes.now result.fault result.place }
{
    match fault {
        DedupeFault::Read(read) => match imports_place(alloc, bytes, read) {
            Ok(place) => Refused {
                fault,
                place: Some(place),
            },
            Err(_) => Refused::without_place(DedupeFault::Memory),
        },
        _ => Refused::without_place(fault),
    }
}

/// The renamed module and its renames, `None` where the bytes stay the same.
fn dedupe(alloc: Global, bytes: &[u8]) -> Result<Option<(Vec<u8>, ModuleImportMap)>, DedupeFault>
    ensures renamed { IfOk result (λ o. IfSome o (λ r.
        (r.1 ≢ []) × IsDeduped bytes.now r.0.items r.1)) }
    ensures same { IfOk result (λ o. IsNone o → IsDeduped bytes.now bytes.now []) }
    ensures component { IsComponent bytes.now → result ≡ Ok None }
    ensures refused { IfErr result (IsDedupeCause bytes.now) }
{
    let parts = match parse_module(alloc, bytes) {
        Ok(parts) => parts,
        Err(fault) => match fault {
            ReadFault::Component => return Ok(None),
            _ => return Err(DedupeFault::from(fault)),
        },
    };
    let renaming = renaming_of(alloc, &parts)?;
    let renames = renaming.map.renames();
    if renames.is_empty() {
        return Ok(None);
    }
    let written = write_sections(alloc, bytes.len(), &parts, &renaming.indices, renames)?;
    Ok(Some((written, renaming.map)))
}

/// The renaming of the imports of all import sections.
fn renaming_of(alloc: Global, parts: &[ParsedSection<'_>]) -> Result<Renaming, AllocError>
    ensures { IfOk result (λ r. IsRenaming
        (originals (imports_of (parsed_values parts.now))) r.indices.items r.map) }
{
    let names = import_names(alloc, parts)?;
    rename_all(alloc, &names)
}
