//! Trimming, from bytes to bytes.

ghost use Rattle.std.specs.Prelude.{◌≡◌, ◌≢◌, ◌≤◌, ◌⊎◌, ℕ, List, [], map, true, IsTrue, IfOk, IfErr, IsOk};
ghost use Rattle.wc_read.specs.Exports.{export_value};
ghost use Rattle.wc_read.specs.Modules.{IsModule, SpellsModule, module_value};
ghost use Rattle.wc_read.specs.declared.operators.Space.TheVariants.{Funcs};
ghost use Rattle.wc_write.specs.Modules.{built_text};
ghost use Rattle.wc_write.specs.Values.{AreBytes};
ghost use Rattle.wc_read.specs.Decoded.{decoded_module};
ghost use Rattle.wc_gc.specs.Private.ItemCounts.{ItemCountsFitU32};
ghost use Rattle.wc_gc.specs.Private.KeptBodies.{AreBodiesCut};
ghost use Rattle.wc_gc.specs.Edit.{edit};
ghost use Rattle.wc_gc.specs.EditedImage.{edited_image};
ghost use Rattle.wc_gc.specs.Laws.{AreSettings};
ghost use Rattle.wc_gc.specs.LiveItems.{trim_input};
ghost use Rattle.wc_gc.specs.Live.{has_item};
ghost use Rattle.wc_gc.specs.Parts.{settings, settings_view};
ghost use Rattle.wc_gc.specs.InRange.{is_item_in_range};
ghost use Rattle.wc_gc.specs.TrimmedText.{IsTrimmed};
ghost use Rattle.wc_gc.specs.Trim.{IsLaterCause, IsLaterFault, IsTrimFault};
ghost use Rattle.wc_gc.specs.TrimPlace.{IsExplained};

use crate::causes::check_found;
use crate::edited_image::edited_text;
use crate::fault::GcFault;
use crate::found::Found;
use crate::live::LiveSet;
use crate::live_items::{Reached, find_live_in};
use crate::settings::Settings;
use crate::trim_place::{Refusal, run_explained, unread};
use std::alloc::Global;
use wc_maps::Set;
use wc_read::{Module, read_module_explained};
use wc_texts::Refused;
use wc_write::laws::slices_are_bytes;

/// Trims an adapter to its required exports and the items that they reach. The items keep their order, and each index
/// becomes the item's rank among them. Exports that are not required are removed one after another, in their order,
/// and each time the last export moves to the free index. Bodies that are not reached are not read. Numbers are
/// written as minimal LEB128. Runs of locals and the content of producers stay unchanged; names of globals and other
/// custom sections are left out.
///
/// A live import of `cabi_realloc` or `canonical_abi_realloc` from `__main_module__` takes the name
/// `main_module_realloc`; without that name it becomes a function of the adapter that grows memory, as
/// `realloc_via_memory_grow` writes it, after all imports.
///
/// Where a live mutable global of type i32 is named `__stack_pointer`, a stack is allocated by code that is added, as
/// `allocate_stack_via_realloc` writes it:
///
/// - With `main_module_realloc` and no live realloc import, an import of it is added after the others of functions,
///   called or not.
/// - With `main_module_realloc` and another such global named `allocation_state`, each defined function that a required
///   export names begins with a call of the code, which is added after all functions.
/// - Otherwise, if a memory is live, the code is the start function, added last. A function that grows memory is
///   added before it if no global has the state, or if there is neither `main_module_realloc` nor a live realloc
///   import.
/// - The code calls the added function that grows memory, or without it the last live realloc import, or without this
///   the added import.
/// - The types of added functions come after the live ones. The start function has the last live type without
///   parameters and results, if one exists.
///
/// # Errors
///
/// If several causes apply, the first in this order is named; `Memory` may come instead of any.
///
/// - `Read`: the bytes are no module; the fault of `read_module`.
/// - `MissingExport`: a required name is not exported; the first of them.
/// - `UnsupportedSection`: the adapter has a start function, or a section of elements, data or a data count.
/// - `LiveBody`: a body that is reached is no code, or names a segment or an index that is out of range.
/// - `SeveralNamed`: two live mutable globals of type i32 are named `__stack_pointer`, or two `allocation_state`.
/// - `LiveTable`: a table is reached.
/// - `SeveralMemories`: two memories are reached.
/// - `LocalMemory`: a memory that is reached is not imported.
/// - `ReallocType`: an imported realloc that becomes a function of the adapter, or that is called first by exported
///   functions, has another type than `i32 i32 i32 i32 -> i32`.
/// - `ReallocMemory`: a function that grows memory is in the output, and no memory of 32 bits is reached whose pages
///   have 2 to the power of `page_size_log2` bytes; 2^16 bytes where its type does not say.
/// - `TooLarge`: there would be 2^32 types or functions, or the content of a section would have 2^32 bytes or more.
/// - `Memory`: an allocation failed.
pub fn run(
    alloc: Global,
    wasm: &[u8],
    required: &Set<String>,
    main_module_realloc: Option<&str>,
    page_size_log2: u32,
) -> Result<Vec<u8>, GcFault>
    requires some { required.now.keys ≢ [] }
    requires paged { page_size_log2 ≤ 16 }
    // What is answered spells the image, and no other module. What is kept or added unfolds in it as in the edited
    // adapter. No fault has a cause.
    ensures trimmed { IfOk result (λ v. IsTrimmed
        (settings main_module_realloc.entry page_size_log2)
        (trim_input wasm.now required.now.keys) v.items) }
    // A fault has its cause, and no fault before it has.
    ensures fault { IfErr result (IsTrimFault (settings main_module_realloc.entry page_size_log2)
        (trim_input wasm.now required.now.keys)) }
{
    match run_explained(alloc, wasm, required, main_module_realloc, page_size_log2) {
        Ok(trimmed) => Ok(trimmed),
        Err(refused) => Err(refused.fault),
    }
}

/// Trims an adapter under settings, with live items in sets of any kind.
pub fn trim<'a, L: LiveSet>(
    alloc: Global,
    wasm: &'a [u8],
    required: &Set<String>,
    settings: Settings<'a>,
) -> Result<Vec<u8>, Refusal>
    ensures trimmed { IfOk result (λ v. IsTrimmed (settings_view settings.entry)
        (trim_input wasm.now required.now.keys) v.items) }
    ensures fault { IfErr result (λ r. IsTrimFault (settings_view settings.entry)
        (trim_input wasm.now required.now.keys) r.fault) }
    ensures place { IfErr result (λ r. IsExplained
        (trim_input wasm.now required.now.keys) r.fault r.place) }
{
    // So a vector has fewer than 2^32 items.
    slices_are_bytes(wasm);
    match read_module_explained(alloc, wasm) {
        Ok(adapter) => trim_module::<L>(alloc, adapter, required, settings),
        Err(refused) => Err(unread(refused)),
    }
}

/// Trims a module that was read.
fn trim_module<'a, L: LiveSet>(
    alloc: Global,
    adapter: Module<'a>,
    required: &Set<String>,
    settings: Settings<'a>,
) -> Result<Vec<u8>, Refusal>
    requires valid { IsModule (module_value adapter) }
    requires bounded { ItemCountsFitU32 adapter }
    ensures trimmed { IfOk result (λ v. (bytes : List ℕ) → AreBytes bytes
        → SpellsModule bytes (module_value adapter.entry) → IsTrimmed
        (settings_view settings.entry) (trim_input bytes required.now.keys) v.items) }
    ensures fault { IfErr result (λ r. (bytes : List ℕ)
        → SpellsModule bytes (module_value adapter.entry) → IsTrimFault
        (settings_view settings.entry) (trim_input bytes required.now.keys) r.fault) }
    ensures place { IfErr result (λ r. (bytes : List ℕ)
        → SpellsModule bytes (module_value adapter.entry) → IsExplained
        (trim_input bytes required.now.keys) r.fault r.place) }
{
    settings_are_valid(settings);
    let places = adapter.funcs.len();
    let reached = find_live_in::<L>(alloc, &adapter, required, places)?;
    match image_text(alloc, adapter, &reached, settings) {
        Ok(text) => Ok(text),
        Err(fault) => Err(Refused::without_place(fault)),
    }
}

/// The text of the image of a module of which these items are live, where none of them stops it.
fn image_text<'a, L: LiveSet>(
    alloc: Global,
    adapter: Module<'a>,
    reached: &Reached<'a, L>,
    settings: Settings<'a>,
) -> Result<Vec<u8>, GcFault>
    requires valid { IsModule (module_value adapter) }
    requires bounded { ItemCountsFitU32 adapter }
    requires in_range { (n : ℕ) → IsTrue (L.has reached.now.found.live.funcs n)
        → is_item_in_range (decoded_module adapter) (Funcs, n) ≡ true }
    requires cut { AreBodiesCut adapter.funcs.items reached.now.cuts }
    ensures written { IfOk result (λ v. v.items ≡ built_text (edited_image (edit
        (settings_view settings.entry) (decoded_module adapter.entry)
        (map export_value reached.now.exports.items)
        (has_item L.has reached.now.found.live)))) }
    ensures none { IsOk result → (f : GcFault) →
        ¬ (IsLaterCause (settings_view settings.entry) (decoded_module adapter.entry)
        (map export_value reached.now.exports.items)
        (has_item L.has reached.now.found.live) f) }
    ensures fault { IfErr result (λ f. (f ≡ GcFault.Memory)
        ⊎ IsLaterFault (settings_view settings.entry) (decoded_module adapter.entry)
        (map export_value reached.now.exports.items)
        (has_item L.has reached.now.found.live) f) }
{
    let found = Found::of(alloc, &adapter, &reached.found.live)?;
    check_found(&adapter, settings, &found)?;
    edited_text(alloc, adapter, reached, settings, &found)
}

/// A realloc's name is text, and pages have 2^16 bytes at most. A call does nothing when it runs.
fn settings_are_valid(settings: Settings<'_>)
    ensures { AreSettings (settings_view settings.entry) }
{}
