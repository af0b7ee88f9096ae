//! The main module as a component is encoded from it.

ghost use Rattle.std.specs.Prelude.{◌≡◌, ◌≢◌, [], IfErr, IfOk, IfSome, IsNone};
ghost use Rattle.std.specs.Cow.{cow_slice_items};
ghost use Rattle.wc_dedupe.specs.Dedupe.{IsDeduped, IsDedupeCause, IsDedupePlace, renames_in};
ghost use Rattle.wc_encoder.specs.EncoderParts.{given_in};

use std::alloc::{AllocError, Global};
use std::borrow::CowSlice;
use wc_dedupe::{DedupeFault, ModuleImportMap};
use wc_read::ReadPlace;
use wc_texts::Refused;

/// A main module whose repeated imports are renamed.
#[derive(Drop)]
pub struct MainModule {
    /// Its bytes.
    pub wasm: Vec<u8>,
    /// The original names of its renamed imports, where some were renamed.
    pub import_map: Option<ModuleImportMap>,
    /// The bytes as they were passed, if some imports were renamed.
    pub given: Option<Vec<u8>>,
}

impl MainModule {
    /// The main module of these bytes, with its repeated imports renamed (`ModuleImportMap::new`); or, if they can't
    /// be read, the offset at which they are malformed. Owned bytes are not copied; borrowed ones are.
    ///
    /// # Errors
    ///
    /// - `Read`: the bytes are no component, and can't be split into sections or have a malformed import section. It
    ///   carries the reader's fault, never `Memory` or `Component`. Only this fault has a position.
    /// - `TooLarge`: an import repeats, and a section of the renamed module has a content of 2^32 bytes or more.
    /// - `Memory`: an allocation failed, the one for the position included.
    ///
    /// `wasm` is dropped on an error.
    pub fn new_explained(
        alloc: Global,
        wasm: CowSlice<'_, u8>,
    ) -> Result<MainModule, Refused<DedupeFault, ReadPlace>>
        ensures dedupe { IfOk result (λ m. IsDeduped
            (cow_slice_items wasm.entry) m.wasm.items (renames_in m.import_map)) }
        ensures some { IfOk result (λ m. IfSome m.import_map (λ map. map ≢ [])) }
        ensures given { IfOk result (λ m.
            given_in m.given m.wasm.items ≡ cow_slice_items wasm.entry) }
        ensures refused { IfErr result (λ r. IsDedupeCause (cow_slice_items wasm.entry) r.fault) }
        // The place is within the bytes, and in the section that it names.
        ensures place { IfErr result (λ r.
            IsDedupePlace (cow_slice_items wasm.entry) r.fault r.place) }
    {
        match renamed(alloc, wasm.as_slice())? {
            Some((renamed, map)) => {
                let given = owned(alloc, wasm)?;
                Ok(MainModule {
                    wasm: renamed,
                    import_map: Some(map),
                    given: Some(given),
                })
            }
            None => {
                let wasm = owned(alloc, wasm)?;
                Ok(MainModule {
                    wasm,
                    import_map: None,
                    given: None,
                })
            }
        }
    }
}

/// A module with its repeated imports renamed, and their original names; `None` where none repeats.
fn renamed(
    alloc: Global,
    wasm: &[u8],
) -> Result<Option<(Vec<u8>, ModuleImportMap)>, Refused<DedupeFault, ReadPlace>>
    ensures renamed { IfOk result (λ o. IfSome o (λ r.
        (r.1 ≢ []) × IsDeduped wasm.now r.0.items r.1)) }
    ensures same { IfOk result (λ o. IsNone o → IsDeduped wasm.now wasm.now []) }
    ensures refused { IfErr result (λ r. IsDedupeCause wasm.now r.fault) }
    ensures place { IfErr result (λ r. IsDedupePlace wasm.now r.fault r.place) }
{
    let (bytes, map) = ModuleImportMap::new_explained(alloc, CowSlice::Borrowed(wasm))?;
    let Some(map) = map else {
        return Ok(None);
    };
    let bytes = owned(alloc, bytes)?;
    Ok(Some((bytes, map)))
}

/// The bytes, copied if they are borrowed.
fn owned(alloc: Global, bytes: CowSlice<'_, u8>) -> Result<Vec<u8>, AllocError>
    ensures { IfOk result (λ v. v.items ≡ cow_slice_items bytes.entry) }
{
    match bytes {
        CowSlice::Owned(bytes) => Ok(bytes),
        CowSlice::Borrowed(bytes) => Vec::from_slice(alloc, bytes),
    }
}
