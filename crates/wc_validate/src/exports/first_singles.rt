//! Positions of the first exports of single kinds.

ghost use Rattle.std.specs.Prelude.{◌≡◌, None, true};
ghost use Rattle.wc_validate.specs.Exports.FirstExports.{SingleKind, single_position, IsSingleKept};
ghost use Rattle.wc_validate.specs.FirstPositions.{kept_position};

use wc_names::Export;

/// The positions of the first exports of the kinds that are looked up by nothing more.
#[derive(Drop)]
pub(crate) struct FirstSingles {
    pub(crate) memory: Option<usize>,
    pub(crate) function_table: Option<usize>,
    pub(crate) task_hook: Option<usize>,
    pub(crate) initialize: Option<usize>,
    pub(crate) realloc: Option<usize>,
    pub(crate) export_realloc: Option<usize>,
    pub(crate) import_realloc: Option<usize>,
    pub(crate) adapter_realloc: Option<usize>,
}

/// Keeps a position, if there is none yet.
fn keep(first: &mut Option<usize>, position: usize)
    ensures { first.new ≡ kept_position first.old true position }
{
    if first.is_none() {
        *first = Some(position);
    }
}

impl FirstSingles {
    /// No positions.
    pub(crate) fn new() -> FirstSingles
        ensures { (kind : SingleKind) → single_position result kind ≡ None }
    {
        FirstSingles {
            memory: None,
            function_table: None,
            task_hook: None,
            initialize: None,
            realloc: None,
            export_realloc: None,
            import_realloc: None,
            adapter_realloc: None,
        }
    }

    /// Keeps the position of an export, if it is the first of a single kind.
    pub(crate) fn note(&mut self, export: &Export, position: usize)
        ensures { IsSingleKept self.old self.new export.now position }
    {
        match export {
            Export::Memory(_) => keep(&mut self.memory, position),
            Export::IndirectFunctionTable => keep(&mut self.function_table, position),
            Export::WasmTaskHook => keep(&mut self.task_hook, position),
            Export::Initialize => keep(&mut self.initialize, position),
            Export::GeneralPurposeRealloc => keep(&mut self.realloc, position),
            Export::GeneralPurposeExportRealloc => keep(&mut self.export_realloc, position),
            Export::GeneralPurposeImportRealloc => keep(&mut self.import_realloc, position),
            Export::ReallocForAdapter => keep(&mut self.adapter_realloc, position),
            Export::WorldFunc(..)
            | Export::WorldFuncPostReturn(..)
            | Export::InterfaceFunc(..)
            | Export::InterfaceFuncPostReturn(..)
            | Export::ResourceDtor(..)
            | Export::WorldFuncCallback(..)
            | Export::InterfaceFuncCallback(..) => {}
        }
    }
}
