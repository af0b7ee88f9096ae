//! Positions of the first exports of a list, for all that is looked up in it.

ghost use Rattle.std.specs.Prelude.{◌≡◌, [], IfOk, map};
ghost use Rattle.wc_validate.specs.Exports.Map.{export_entry};
ghost use Rattle.wc_validate.specs.Exports.FirstExports.{HasFirstPositions, position_in, IsDestructorKept, IsExportKept};
ghost use Rattle.wc_validate.specs.FirstPositions.{earlier};

use crate::exports::first_singles::FirstSingles;
use crate::exports::map::Query;
use crate::first_by_key::{FirstByKey, keep_key};
use std::alloc::{AllocError, Global};
use wc_maps::{Map, Seed};
use wc_names::Export;
use wc_resolve::{TypeId, WorldKey};

/// The positions of the first exports: of functions, of what runs after functions of interfaces and of their callbacks
/// by key and name; of those of functions of the world by key; of destructors by type; and of single kinds.
#[derive(Drop)]
pub(crate) struct FirstExports {
    functions: FirstByKey,
    post_returns: FirstByKey,
    callbacks: FirstByKey,
    world_post_returns: Map<WorldKey, usize>,
    world_callbacks: Map<WorldKey, usize>,
    destructors: Map<TypeId, usize>,
    singles: FirstSingles,
}

/// The earlier of two positions, if there is one.
fn earlier(left: Option<usize>, right: Option<usize>) -> Option<usize>
    ensures { result ≡ earlier left right }
{
    match (left, right) {
        (Some(left), Some(right)) => Some(left.min(right)),
        (Some(left), None) => Some(left),
        (None, right) => right,
    }
}

/// Keeps the position of the destructor of a type, if there is none yet.
fn keep_destructor(
    destructors: &mut Map<TypeId, usize>,
    ty: TypeId,
    position: usize,
) -> Result<(), AllocError>
    ensures { IsDestructorKept destructors.old.entries destructors.new.entries ty position result }
{
    if destructors.contains_key(&ty) {
        return Ok(());
    }
    destructors.insert(ty, position)?;
    Ok(())
}

impl FirstExports {
    /// No positions.
    pub(crate) fn new(alloc: Global, seed: Seed) -> FirstExports
        ensures { HasFirstPositions result [] }
    {
        FirstExports {
            functions: FirstByKey::new(alloc, seed),
            post_returns: FirstByKey::new(alloc, seed),
            callbacks: FirstByKey::new(alloc, seed),
            world_post_returns: Map::with_hasher(alloc, seed),
            world_callbacks: Map::with_hasher(alloc, seed),
            destructors: Map::with_hasher(alloc, seed),
            singles: FirstSingles::new(),
        }
    }

    /// Keeps the position of an export, if it is the first that serves a purpose.
    fn note(&mut self, alloc: Global, export: &Export, position: usize) -> Result<(), AllocError>
        ensures { IsExportKept self.old self.new export.now position result }
    {
        match export {
            Export::WorldFunc(key, name, _) | Export::InterfaceFunc(key, _, name, _) => {
                self.functions.keep(alloc, key, name, position)
            }
            Export::InterfaceFuncPostReturn(key, name) => {
                self.post_returns.keep(alloc, key, name, position)
            }
            Export::InterfaceFuncCallback(key, name) => {
                self.callbacks.keep(alloc, key, name, position)
            }
            Export::WorldFuncPostReturn(key) => {
                keep_key(alloc, &mut self.world_post_returns, key, position)
            }
            Export::WorldFuncCallback(key) => {
                keep_key(alloc, &mut self.world_callbacks, key, position)
            }
            Export::ResourceDtor(ty) => keep_destructor(&mut self.destructors, *ty, position),
            Export::Memory(_)
            | Export::GeneralPurposeRealloc
            | Export::GeneralPurposeExportRealloc
            | Export::GeneralPurposeImportRealloc
            | Export::Initialize
            | Export::ReallocForAdapter
            | Export::IndirectFunctionTable
            | Export::WasmTaskHook => {
                self.singles.note(export, position);
                Ok(())
            }
        }
    }

    /// The positions of the first exports among these.
    pub(crate) fn among(
        alloc: Global,
        names: &Map<String, Export>,
    ) -> Result<FirstExports, AllocError>
        ensures { IfOk result (λ first. HasFirstPositions first
            (map export_entry names.now.entries)) }
    {
        let mut first = FirstExports::new(alloc, *names.hasher());
        let mut position: usize = 0;
        for (_name, export) in names.iter() {
            first.note(alloc, export, position)?;
            position += 1;
        }
        Ok(first)
    }

    /// The position of the first export that is what is looked up.
    pub(crate) fn position(&self, query: Query<'_>) -> Option<usize>
        ensures { result ≡ position_in self.now query.entry }
    {
        match query {
            Query::Function(key, name) => self.functions.position(key, name),
            Query::PostReturn(key, name) => earlier(
                self.world_post_returns.get(key).copied(),
                self.post_returns.position(key, name),
            ),
            Query::Callback(key, name) => earlier(
                self.world_callbacks.get(key).copied(),
                self.callbacks.position(key, name),
            ),
            Query::Destructor(ty) => self.destructors.get(&ty).copied(),
            Query::Memory => self.singles.memory,
            Query::FunctionTable => self.singles.function_table,
            Query::TaskHook => self.singles.task_hook,
            Query::Initialize => self.singles.initialize,
            Query::Realloc => self.singles.realloc,
            Query::ExportRealloc => self.singles.export_realloc,
            Query::ImportRealloc => self.singles.import_realloc,
            Query::AdapterRealloc => self.singles.adapter_realloc,
        }
    }
}
