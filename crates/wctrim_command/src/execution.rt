//! A command, from the bytes of its input to the bytes of its output.

ghost use Rattle.std.specs.Prelude.{◌≡◌, ◌≢◌, ◌≤◌, true, ℕ, List, [], None, IfOk, IfErr, IsErrOf, OnOk};
ghost use Rattle.std.specs.Option.{option_map};
ghost use Rattle.std.specs.Cow.{cow_slice_items};
ghost use Rattle.std.specs.Io.KnownBytes.{Appends};
ghost use Rattle.wc_read.specs.Modules.{ModuleValue, SpellsModule, module_value};
ghost use Rattle.wc_dedupe.specs.Renaming.{RenameView};
ghost use Rattle.wc_dedupe.specs.Dedupe.{IsDeduped, renames_in};
ghost use Rattle.wc_gc.specs.LiveItems.{names_of, trim_input_for_names};
ghost use Rattle.wc_texts.specs.Names.{first_occurrences};
ghost use Rattle.wc_texts.specs.Puts.{PutsAny};
ghost use Rattle.wctrim_command.specs.Command.{dedupe, scan, command_view, IsExecutable};
ghost use Rattle.wc_gc.specs.Parts.{settings};
ghost use Rattle.wc_gc.specs.TrimmedText.{IsTrimmed};
ghost use Rattle.wctrim_command.specs.Fault.{kept_place, of_dedupe, of_read, of_trim};
ghost use Rattle.wctrim_command.specs.Lines.{lines_of};
ghost use Rattle.wctrim_command.specs.Scan.{scan_lines};
ghost use Rattle.wctrim_command.specs.Execution.{Runs, IsCommandCause, IsRefusalOf, IsTrimsCause, IsTrimsPlace};

use crate::command::Command;
use crate::fault::ToolFault;
use crate::lines::put_renames;
use crate::scan::put_scan;
use crate::trim_arguments::TrimArguments;
use std::alloc::{AllocError, Global};
use std::borrow::CowSlice;
use wc_dedupe::{DedupeFault, ModuleImportMap};
use wc_gc::{GcFault, TrimPlace, run_explained};
use wc_maps::{Seed, Set};
use wc_read::{Module, ReadFault, ReadPlace, read_module_explained};
use wc_texts::Refused;
use wc_write::{PutFailed, Sink};

/// Executes a command on the bytes of its input file: puts the lines that it prints to `out`, and hands out the
/// bytes of its output file, `None` for a scan. `seed`: the seed of the maps that are made; the answer is the same for
/// every seed.
///
/// - A dedupe puts `MODULE: OLD -> NEW` for each renamed import; its bytes are those of `ModuleImportMap::new`.
/// - A trim puts nothing; its bytes are those of `wc_gc::run`. A repeated export counts once.
/// - A scan puts `import MODULE NAME KIND` for each import, and then `export NAME KIND INDEX` for each export.
///
/// # Errors
///
/// - `Dedupe`: of a dedupe alone, the fault of `ModuleImportMap::new`.
/// - `Trim`: of a trim alone, the fault of `wc_gc::run`.
/// - `Read`: of a scan alone, the bytes are no module. It carries `Component` exactly where they begin with a
///   component's header.
/// - `Output`: a put failed. The sink is failed, and how much was written is left open.
/// - `Memory`: an allocation failed.
///
/// After each error but `Output` the sink is unchanged.
pub fn execute<S: Sink>(
    alloc: Global,
    seed: Seed,
    command: &Command<'_>,
    input: &[u8],
    out: &mut S,
) -> Result<Option<Vec<u8>>, ToolFault>
    // A trim has an export at least, and an exponent of 16 at most; `parse` gives no other.
    requires { IsExecutable (command_view command.now) }
    ensures done { IfOk result (λ r. (lines : List ℕ)
        × Runs (command_view command.now) input.now lines (option_map (λ v. v.items) r)
        × Appends (S.written out.old) (S.written out.new) lines) }
    ensures works { OnOk result (S.is_failed out.new ≡ S.is_failed out.old) }
    ensures fault { IfErr result (IsCommandCause (command_view command.now) input.now) }
    ensures output { IsErrOf result ToolFault.Output → S.is_failed out.new ≡ true }
    ensures quiet { IfErr result (λ e. e ≢ ToolFault.Output → out.new ≡ out.old) }
{
    match execute_explained(alloc, seed, command, input, out) {
        Ok(answer) => Ok(answer),
        Err(refused) => Err(refused.fault),
    }
}

/// Executes a command as `execute` does, and says what a fault is about: where reading the module stopped, or of a trim
/// what `wc_gc::run_explained` says.
///
/// # Errors
///
/// Those of `execute`. `Memory` and `Output` have no place.
pub fn execute_explained<S: Sink>(
    alloc: Global,
    seed: Seed,
    command: &Command<'_>,
    input: &[u8],
    out: &mut S,
) -> Result<Option<Vec<u8>>, Refused<ToolFault, TrimPlace>>
    // As of `execute`.
    requires { IsExecutable (command_view command.now) }
    ensures done { IfOk result (λ r. (lines : List ℕ)
        × Runs (command_view command.now) input.now lines (option_map (λ v. v.items) r)
        × Appends (S.written out.old) (S.written out.new) lines) }
    ensures works { OnOk result (S.is_failed out.new ≡ S.is_failed out.old) }
    ensures refusal { IfErr result (IsRefusalOf (command_view command.now) input.now) }
    ensures output { IfErr result (λ r. r.fault ≡ ToolFault.Output
        → S.is_failed out.new ≡ true) }
    ensures quiet { IfErr result (λ r. r.fault ≢ ToolFault.Output → out.new ≡ out.old) }
{
    match *command {
        Command::Dedupe { .. } => Ok(Some(dedupe(alloc, input, out)?)),
        Command::Scan { .. } => {
            scan(alloc, input, out)?;
            Ok(None)
        }
        Command::Trim {
            realloc,
            page,
            exports,
            ..
        } => {
            let arguments = TrimArguments {
                realloc,
                page_size_log2: page,
                exports,
            };
            Ok(Some(trim(alloc, seed, input, arguments)?))
        }
    }
}

/// The bytes of the module with its repeated imports renamed. A line is put for each rename.
fn dedupe<S: Sink>(
    alloc: Global,
    input: &[u8],
    out: &mut S,
) -> Result<Vec<u8>, Refused<ToolFault, TrimPlace>>
    ensures done { IfOk result (λ v. (renames : List RenameView)
        × IsDeduped input.now v.items renames
        × Appends (S.written out.old) (S.written out.new) (lines_of renames)) }
    ensures works { OnOk result (S.is_failed out.new ≡ S.is_failed out.old) }
    ensures refusal { IfErr result (λ r. (s t : List ℕ) → IsRefusalOf (dedupe s t) input.now r) }
    ensures output { IfErr result (λ r. r.fault ≡ ToolFault.Output
        → S.is_failed out.new ≡ true) }
    ensures quiet { IfErr result (λ r. r.fault ≢ ToolFault.Output → out.new ≡ out.old) }
{
    let (bytes, map) = renamed(alloc, input)?;
    match put_map(out, &map) {
        Ok(()) => Ok(bytes),
        Err(PutFailed) => Err(Refused::without_place(ToolFault::Output)),
    }
}

/// Puts a line for each rename of a map, if there is one.
fn put_map<S: Sink>(out: &mut S, map: &Option<ModuleImportMap>) -> Result<(), PutFailed>
    ensures { PutsAny S.written S.is_failed out.old out.new (lines_of (renames_in map.now)) result }
{
    match map {
        Some(map) => put_renames(out, map.renames()),
        None => Ok(()),
    }
}

/// The bytes of the module with its repeated imports renamed, and the renames, if there are any.
fn renamed(
    alloc: Global,
    input: &[u8],
) -> Result<(Vec<u8>, Option<ModuleImportMap>), Refused<ToolFault, TrimPlace>>
    ensures renamed { IfOk result (λ r. IsDeduped input.now r.0.items (renames_in r.1)) }
    ensures refusal { IfErr result (λ r. (s t : List ℕ) → IsRefusalOf (dedupe s t) input.now r) }
    ensures quiet { IfErr result (λ r. r.fault ≢ ToolFault.Output) }
{
    match ModuleImportMap::new_explained(alloc, CowSlice::Borrowed(input)) {
        Ok((module, map)) => Ok((owned(alloc, module)?, map)),
        Err(refused) => Err(dedupe_refusal(refused)),
    }
}

/// The refusal of a command for one of a dedupe.
fn dedupe_refusal(refused: Refused<DedupeFault, ReadPlace>) -> Refused<ToolFault, TrimPlace>
    ensures fault { result.fault ≡ of_dedupe refused.fault }
    ensures place { result.place ≡ kept_place (of_dedupe refused.fault)
        (option_map TrimPlace.Bytes refused.place) }
{
    let Refused { fault, place } = refused;
    refusal(ToolFault::from(fault), in_bytes(place))
}

/// The refusal of a command for one of reading.
fn read_refusal(refused: Refused<ReadFault, ReadPlace>) -> Refused<ToolFault, TrimPlace>
    ensures fault { result.fault ≡ of_read refused.fault }
    ensures place { result.place ≡ kept_place (of_read refused.fault)
        (option_map TrimPlace.Bytes refused.place) }
{
    let Refused { fault, place } = refused;
    refusal(ToolFault::from(fault), in_bytes(place))
}

/// The refusal of a command for one of trimming.
fn trim_refusal(refused: Refused<GcFault, TrimPlace>) -> Refused<ToolFault, TrimPlace>
    ensures fault { result.fault ≡ of_trim refused.fault }
    ensures place { result.place ≡ kept_place (of_trim refused.fault) refused.place }
{
    let Refused { fault, place } = refused;
    refusal(ToolFault::from(fault), place)
}

/// The refusal with this fault, and with this place, unless the fault is that of memory.
fn refusal(fault: ToolFault, place: Option<TrimPlace>) -> Refused<ToolFault, TrimPlace>
    ensures fault { result.fault ≡ fault }
    ensures place { result.place ≡ kept_place fault place }
{
    match fault {
        ToolFault::Memory => Refused::without_place(fault),
        _ => Refused { fault, place },
    }
}

/// A place in the bytes of a module.
fn in_bytes(place: Option<ReadPlace>) -> Option<TrimPlace>
    ensures { result ≡ option_map TrimPlace.Bytes place }
{
    match place {
        Some(place) => Some(TrimPlace::Bytes(place)),
        None => None,
    }
}

/// The bytes, copied where they are borrowed.
fn owned(alloc: Global, bytes: CowSlice<'_, u8>) -> Result<Vec<u8>, AllocError>
    ensures { IfOk result (λ v. v.items ≡ cow_slice_items bytes.entry) }
{
    match bytes {
        CowSlice::Owned(bytes) => Ok(bytes),
        CowSlice::Borrowed(bytes) => Vec::from_slice(alloc, bytes),
    }
}

/// Reads a module, and then puts a line for each of its imports and exports.
fn scan<S: Sink>(
    alloc: Global,
    input: &[u8],
    out: &mut S,
) -> Result<(), Refused<ToolFault, TrimPlace>>
    ensures done { OnOk result ((m : ModuleValue) × SpellsModule input.now m
        × Appends (S.written out.old) (S.written out.new) (scan_lines m)) }
    ensures works { OnOk result (S.is_failed out.new ≡ S.is_failed out.old) }
    ensures refusal { IfErr result (λ r. (s : List ℕ) → IsRefusalOf (scan s) input.now r) }
    ensures output { IfErr result (λ r. r.fault ≡ ToolFault.Output
        → S.is_failed out.new ≡ true) }
    ensures quiet { IfErr result (λ r. r.fault ≢ ToolFault.Output → out.new ≡ out.old) }
{
    match read_module_explained(alloc, input) {
        Ok(module) => scan_module(out, &module),
        Err(refused) => Err(read_refusal(refused)),
    }
}

/// Puts a line for each import and export of a module.
fn scan_module<S: Sink>(
    out: &mut S,
    scanned: &Module<'_>,
) -> Result<(), Refused<ToolFault, TrimPlace>>
    ensures put { OnOk result (Appends (S.written out.old) (S.written out.new)
        (scan_lines (module_value scanned.now))) }
    ensures works { OnOk result (S.is_failed out.new ≡ S.is_failed out.old) }
    ensures fault { IfErr result (λ r. (r.fault ≡ ToolFault.Output) × (r.place ≡ None)) }
    ensures output { IfErr result (λ _. S.is_failed out.new ≡ true) }
{
    match put_scan(out, scanned) {
        Ok(()) => Ok(()),
        Err(PutFailed) => Err(Refused::without_place(ToolFault::Output)),
    }
}

/// The adapter, trimmed to what the exports of these names reach.
fn trim(
    alloc: Global,
    seed: Seed,
    input: &[u8],
    arguments: TrimArguments<'_>,
) -> Result<Vec<u8>, Refused<ToolFault, TrimPlace>>
    requires some { arguments.exports.now ≢ [] }
    requires paged { arguments.page_size_log2 ≤ 16 }
    ensures done { IfOk result (λ v. IsTrimmed
        (settings arguments.entry.realloc arguments.entry.page_size_log2)
        (trim_input_for_names input.now (names_of arguments.entry.exports.now)) v.items) }
    ensures fault { IfErr result (λ r. IsTrimsCause
        (settings arguments.entry.realloc arguments.entry.page_size_log2)
        (trim_input_for_names input.now (names_of arguments.entry.exports.now)) r.fault) }
    ensures place { IfErr result (λ r. IsTrimsPlace
        (trim_input_for_names input.now (names_of arguments.entry.exports.now)) r.fault r.place) }
{
    let required = required_exports(alloc, seed, arguments.exports)?;
    let page_size_log2 = arguments.page_size_log2;
    match run_explained(alloc, input, &required, arguments.realloc, page_size_log2) {
        Ok(bytes) => Ok(bytes),
        Err(refused) => Err(trim_refusal(refused)),
    }
}

/// The names as a set, in order of their first occurrences.
fn required_exports(
    alloc: Global,
    seed: Seed,
    exports: &[String],
) -> Result<Set<String>, AllocError>
    ensures { IfOk result (λ names. names_of names.keys
        ≡ first_occurrences (names_of exports.now)) }
{
    let mut names = Set::with_hasher(alloc, seed);
    for export in exports {
        names.insert(export.clone()?)?;
    }
    Ok(names)
}
