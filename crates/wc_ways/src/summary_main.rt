//! The imports of each interface by the main module of a component.

ghost use Rattle.std.specs.Prelude.{OnOk};
ghost use Rattle.wc_import_paths.specs.MainModules.{main_view};
ghost use Rattle.wc_summary.specs.Entries.{entries_view};
ghost use Rattle.wc_world.specs.WorldViews.{world_view};
ghost use Rattle.wc_ways.specs.Tags.{all_key};
ghost use Rattle.wc_ways.specs.Private.AskedKeys.{IsAskedOf};
ghost use Rattle.wc_ways.specs.Private.SummaryMain.{NotesMain, NotesMainOf};

use crate::asked_keys::AskedKeys;
use crate::tags::tags_of;
use std::alloc::{AllocError, Global};
use wc_import_paths::MainModule;
use wc_summary::{Entries, note_main_module};
use wc_world::ComponentWorld;

/// Notes what the main module imports.
pub(crate) fn note_main(
    alloc: Global,
    world: &ComponentWorld<'_>,
    keys: &AskedKeys<'_>,
    entries: &mut Entries<'_>,
) -> Result<(), AllocError>
    requires { IsAskedOf (world_view world.now) all_key keys.now }
    ensures { OnOk result (NotesMain (world_view world.now)
        (entries_view entries.old.entries) (entries_view entries.new.entries)) }
{
    // The bytes are those of a module, and no export is named: there is no fault but that memory runs out.
    let seed = *world.adapters.hasher();
    match MainModule::read(alloc, seed, world.encoder.module(), &[]) {
        Ok(main) => note_module(alloc, world, keys, &main, entries),
        Err(_) => Err(AllocError),
    }
}

/// Notes what the main module imports, which was read.
fn note_module(
    alloc: Global,
    world: &ComponentWorld<'_>,
    keys: &AskedKeys<'_>,
    main: &MainModule<'_>,
    entries: &mut Entries<'_>,
) -> Result<(), AllocError>
    requires { IsAskedOf (world_view world.now) all_key keys.now }
    ensures { OnOk result (NotesMainOf (world_view world.now) (main_view main.now)
        (entries_view entries.old.entries) (entries_view entries.new.entries)) }
{
    let code = main.code();
    let tags = tags_of(alloc, keys, &world.info.imports, &code.imports)?;
    note_main_module(alloc, code, main.segments(), &tags, entries)
}
