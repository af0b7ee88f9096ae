//! The exports of a core module, recorded one after another.

ghost use Rattle.std.specs.Prelude.{◌≡◌, ◌≢◌, ◌<◌, AllPairs, IfErr, IfOk, None, OnOk, Some, length, map};
ghost use Rattle.std.specs.Map.{lookup};
ghost use Rattle.std.specs.Str.{bytes_eq};
ghost use Rattle.wc_read.specs.Exports.{export_value};
ghost use Rattle.wc_read.specs.Modules.{HaveTypes, count_of, module_value};
ghost use Rattle.wc_validate.specs.Exports.Contexts.{IsExportContext};
ghost use Rattle.wc_validate.specs.Exports.Map.{export_entry};
ghost use Rattle.wc_validate.specs.Private.Externs.{extern_view};
ghost use Rattle.wc_validate.specs.Exports.Record.{item_type, AreExportsAdded, AreExportsIn, IsExportAdded};
ghost use Rattle.wc_validate.specs.Private.Explain.{IsExportStopIn, IsRefusedExport};

use crate::exports::classify::{ExportContext, classify_export};
use crate::externs::Extern;
use crate::name_fault::NameFault;
use crate::refused::RefusedExport;
use std::alloc::Global;
use wc_maps::Map;
use wc_names::Export;
use wc_read::{ExportKind, Module};

/// The type of the item of a kind that has this index.
pub(crate) fn exported_type<'m>(module: &'m Module<'_>, kind: ExportKind, index: u32) -> Extern<'m>
    requires item { index < count_of (module_value «module».now) kind }
    requires typed { HaveTypes (module_value «module».now) }
    ensures { item_type (module_value «module».now) kind index ≡ Some (extern_view result) }
{
    match kind {
        ExportKind::Func => {
            let ty = module.funcs[index as usize].ty;
            Extern::Func(&module.types[ty as usize])
        }
        ExportKind::Table => Extern::Table(module.tables[index as usize].ty),
        ExportKind::Memory => Extern::Memory(module.memories[index as usize].ty),
        ExportKind::Global => Extern::Global(module.globals[index as usize].ty),
    }
}

/// Records an export after the others, if it means something.
fn record_export(
    names: &mut Map<String, Export>,
    alloc: Global,
    context: &ExportContext<'_>,
    name: &str,
    ty: Extern<'_>,
) -> Result<(), NameFault>
    requires context { IsExportContext context.now }
    requires fresh { lookup (bytes_eq name.now) (map export_entry names.old.entries) ≡ None }
    ensures recorded { OnOk result (IsExportAdded context.now name.now ty.entry names.old.entries
        names.new.entries) }
    ensures fault { IfErr result (IsRefusedExport context.now name.now ty.entry) }
{
    let Some(export) = classify_export(alloc, context, name, ty)? else {
        return Ok(());
    };
    names.insert(String::from_str(alloc, name)?, export)?;
    Ok(())
}

/// The exports of a module, recorded in their order; or the first that is refused.
pub(crate) fn record_exports(
    alloc: Global,
    context: &ExportContext<'_>,
    module: &Module<'_>,
    exports: &[wc_read::Export<'_>],
) -> Result<Map<String, Export>, RefusedExport>
    requires context { IsExportContext context.now }
    requires items { AreExportsIn «module».now exports.now }
    requires distinct { AllPairs (λ x y. x ≢ y)
        (map (λ e. e.name) (map export_value exports.now)) }
    requires typed { HaveTypes (module_value «module».now) }
    ensures recorded { IfOk result (λ names. AreExportsAdded context.now «module».now exports.now
        names.entries) }
    ensures in_range { IfErr result (λ x. x.index < length exports.now) }
    ensures refused { IfErr result (IsExportStopIn context.now «module».now exports.now) }
{
    let mut names = Map::with_hasher(alloc, *context.names.adapters.hasher());
    for (index, export) in exports.iter().enumerate() {
        let ty = exported_type(module, export.kind, export.index);
        if let Err(fault) = record_export(&mut names, alloc, context, export.name, ty) {
            return Err(RefusedExport { index, fault });
        }
    }
    Ok(names)
}
