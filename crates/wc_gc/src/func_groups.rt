//! The live functions of an edited adapter: those that are imported, and those that are defined.

ghost use Rattle.std.specs.Prelude.{◌≡◌, ◌<◌, ◌^◌, ℕ, ◌&&◌, map, nat_eq, length, false, true, IfOk};
ghost use Rattle.std.specs.List.{list_any};
ghost use Rattle.wc_read.specs.Exports.{export_value};
ghost use Rattle.wc_gc.specs.Bits.{bit_of};
ghost use Rattle.wc_read.specs.Decoded.{func_code};
ghost use Rattle.wc_gc.specs.Edit.{is_exported_func, is_func};
ghost use Rattle.wc_gc.specs.Private.FuncGroups.{AreGroups, has_func, is_import_after, is_in_group};
ghost use Rattle.wc_gc.specs.Parts.{settings_view};

use crate::found::imports_realloc;
use crate::live::{BitVec, LiveSet, insert_if};
use crate::settings::Settings;
use std::alloc::{AllocError, Global};
use wc_read::{Def, Export, ExportKind, Func};

/// The live functions of an edited adapter, and those that exports name, by their old indices.
#[derive(Debug, Drop)]
pub struct FuncGroups<L> {
    /// Those that are imported.
    pub imports: L,
    /// Those that are defined: imported reallocs that become growing reallocs among them.
    pub defined: L,
    /// Functions that an export names, as bits: exports come in any order.
    pub exported: BitVec,
}

impl<L: LiveSet> FuncGroups<L> {
    /// The groups of live functions.
    pub fn new(
        alloc: Global,
        funcs: &[Func<'_>],
        live: &L,
        exports: &[Export<'_>],
        settings: Settings<'_>,
    ) -> Result<FuncGroups<L>, AllocError>
        requires { length funcs.now < 2 ^ 32 }
        ensures { IfOk result (AreGroups L.has (settings_view settings.entry)
            funcs.now (L.has live.now) (map export_value exports.now)) }
    {
        let live = live.numbers_below(alloc, funcs.len() as u32)?;
        let (imports, defined) = groups(alloc, funcs, &live, settings)?;
        Ok(FuncGroups {
            imports,
            defined,
            exported: exported_funcs(alloc, exports)?,
        })
    }
}

/// Of functions, by their indices, those that are imported after the edit, and those that are not.
fn groups<L: LiveSet>(
    alloc: Global,
    funcs: &[Func<'_>],
    indices: &[u32],
    settings: Settings<'_>,
) -> Result<(L, L), AllocError>
    ensures imports { IfOk result (λ r. (n : ℕ) → L.has r.0 n
        ≡ (list_any (nat_eq n) indices.now
        && has_func (is_in_group (settings_view settings.entry) true) funcs.now n)) }
    ensures defined { IfOk result (λ r. (n : ℕ) → L.has r.1 n
        ≡ (list_any (nat_eq n) indices.now
        && has_func (is_in_group (settings_view settings.entry) false) funcs.now n)) }
{
    let mut imports = L::new(alloc);
    let mut defined = L::new(alloc);
    for index in indices {
        let is_imported = has_func_in_group(funcs, *index, settings, true);
        insert_if(&mut imports, *index, is_imported)?;
        let is_defined = has_func_in_group(funcs, *index, settings, false);
        insert_if(&mut defined, *index, is_defined)?;
    }
    Ok((imports, defined))
}

/// Whether the function of an index is imported after the edit, or whether it is not.
fn has_func_in_group(funcs: &[Func<'_>], index: u32, settings: Settings<'_>, imported: bool) -> bool
    ensures { result
        ≡ has_func (is_in_group (settings_view settings.entry) imported) funcs.now index }
{
    match funcs.get(index as usize) {
        Some(func) => is_in_group(func, settings, imported),
        None => false,
    }
}

/// The functions that exports name.
fn exported_funcs(alloc: Global, exports: &[Export<'_>]) -> Result<BitVec, AllocError>
    ensures { IfOk result (λ r. (n : ℕ) → bit_of r.words.items n
        ≡ is_exported_func (map export_value exports.now) n) }
{
    let mut funcs = BitVec::new(alloc);
    for export in exports {
        insert_if(&mut funcs, export.index, is_func(export.kind))?;
    }
    Ok(funcs)
}

fn is_func(kind: ExportKind) -> bool
    ensures { result ≡ is_func kind }
{
    matches!(kind, ExportKind::Func)
}

/// Whether a function is imported after the edit, or whether it is not.
fn is_in_group(func: &Func<'_>, settings: Settings<'_>, imported: bool) -> bool
    ensures { result
        ≡ is_in_group (settings_view settings.entry) imported (func_code func.now) }
{
    if imported {
        stays_imported(func, settings)
    } else {
        !stays_imported(func, settings)
    }
}

/// Whether a function is imported after the edit.
fn stays_imported(func: &Func<'_>, settings: Settings<'_>) -> bool
    ensures { result ≡ is_import_after (settings_view settings.entry) (func_code func.now) }
{
    match func.def {
        Def::Import(_, _) => settings.realloc.is_some() || !imports_realloc(func.def),
        Def::Local(_) => false,
    }
}
