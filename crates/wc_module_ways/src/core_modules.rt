//! The core modules of a component's file, when they are read.

ghost use Rattle.std.specs.Prelude.{◌≡◌, ◌<◌, ◌^◌, ◌∷◌, [], ◌++◌, All, IfErr, IfOk, List, OnOk, false, map, true};
ghost use Rattle.wc_read.specs.Modules.{module_value};
ghost use Rattle.wc_paths.specs.Counts.{counts_value};
ghost use Rattle.wc_paths.specs.Items.{counts_of};
ghost use Rattle.wc_paths.specs.Numbers.{item_count};
ghost use Rattle.wc_module_ways.specs.AdapterNames.{HasNames};
ghost use Rattle.wc_module_ways.specs.Adapters.{Given};
ghost use Rattle.wc_module_ways.specs.CoreModules.{HasCore, IsCore, core_code, core_given, core_graph, core_view, is_library, is_library_kind, is_named, is_server, names_given};
ghost use Rattle.wc_module_ways.specs.Matched.{AreMatched};
ghost use Rattle.wc_module_ways.specs.Refusals.{IsCoreFault, IsCoreRefusal, IsCoreRefused};

use crate::core_module::{CoreInput, CoreKind, CoreLibrary, CoreModule, FollowedCore};
use crate::refusals::{ModulesRefusal, of_core};
use std::alloc::{AllocError, Global};
use wc_gc::GcFault;
use wc_import_paths::{Asked, ModuleRows, Refusal, follow, read_code};
use wc_maps::{Seed, Set};
use wc_paths::Counts;
use wc_read::Module;
use wc_texts::Refused;

impl<'r> CoreModule<'r> {
    /// Its module.
    pub(crate) fn code(&self) -> &Module<'r>
        ensures { module_value result.now ≡ core_code (core_view self.now) }
    {
        match self {
            CoreModule::Followed(core) => &core.followed.code,
            CoreModule::Unfollowed(core) => &core.code,
        }
    }

    /// How many items it has of each kind.
    pub(crate) fn counts(&self) -> Counts
        ensures counts { counts_value result ≡ counts_of (core_graph (core_view self.now)) }
        ensures fits { item_count (counts_value result) < 2 ^ 64 }
    {
        match self {
            CoreModule::Followed(core) => core.followed.rows.counts,
            CoreModule::Unfollowed(core) => core.rows.counts,
        }
    }

    /// Whether it is a library.
    pub(crate) fn is_library(&self) -> bool
        ensures { result ≡ is_library (core_view self.now) }
    {
        match self {
            CoreModule::Followed(_) => false,
            CoreModule::Unfollowed(_) => true,
        }
    }
}

/// The core modules that are given so, in order. `seed`: the seed of sets.
pub(crate) fn read_core<'r>(
    alloc: Global,
    seed: Seed,
    given: &[CoreInput<'r>],
) -> Result<Vec<CoreModule<'r>>, ModulesRefusal<'r>>
    ensures core { IfOk result (λ v. AreMatched IsCore (map core_given given.now)
        (map core_view v.items)) }
    ensures has { IfOk result (λ v. All HasCore v.items) }
    ensures refused { IfErr result (IsCoreRefusal (map core_given given.now)) }
{
    let mut modules = Vec::new(alloc);
    for index in 0..given.len() {
        modules.push(read_one(alloc, seed, &given[index])?)?;
    }
    Ok(modules)
}

/// The core module that is given so.
fn read_one<'r>(
    alloc: Global,
    seed: Seed,
    given: &CoreInput<'r>,
) -> Result<CoreModule<'r>, ModulesRefusal<'r>>
    ensures core { IfOk result (λ m. IsCore (core_given given.now) (core_view m)) }
    ensures has { IfOk result HasCore }
    ensures refused { IfErr result (IsCoreRefused (core_given given.now)) }
{
    match core_of(alloc, seed, given) {
        Ok(core) => Ok(core),
        Err(refused) => Err(of_core(given, refused)),
    }
}

/// The core module that is given so, or why its bytes can't be followed.
fn core_of<'r>(alloc: Global, seed: Seed, given: &CoreInput<'r>) -> Result<CoreModule<'r>, Refusal>
    ensures core { IfOk result (λ m. IsCore (core_given given.now) (core_view m)) }
    ensures has { IfOk result HasCore }
    ensures refused { IfErr result (λ r. IsCoreFault (is_library_kind given.now.kind)
        given.now.bytes.now r.fault r.place) }
{
    match given.kind {
        CoreKind::Library => library_of(alloc, given),
        CoreKind::Adapter => followed_of(alloc, seed, given, true),
        CoreKind::Other => followed_of(alloc, seed, given, false),
    }
}

/// The library that is given so.
fn library_of<'r>(alloc: Global, given: &CoreInput<'r>) -> Result<CoreModule<'r>, Refusal>
    ensures core { is_library_kind given.now.kind ≡ true
        → IfOk result (λ m. IsCore (core_given given.now) (core_view m)) }
    ensures has { IfOk result HasCore }
    ensures refused { IfErr result (λ r. IsCoreFault true given.now.bytes.now r.fault r.place) }
{
    let code = read_code(alloc, given.bytes)?;
    let rows = ModuleRows::bare(alloc, &code)?;
    Ok(CoreModule::Unfollowed(CoreLibrary {
        name: given.name,
        bytes: given.bytes,
        code,
        rows,
    }))
}

/// The core module that is given so, followed from all its exports.
fn followed_of<'r>(
    alloc: Global,
    seed: Seed,
    given: &CoreInput<'r>,
    serves: bool,
) -> Result<CoreModule<'r>, Refusal>
    ensures core { is_library_kind given.now.kind ≡ false → serves ≡ is_server given.now.kind
        → IfOk result (λ m. IsCore (core_given given.now) (core_view m)) }
    ensures has { IfOk result HasCore }
    ensures refused { IfErr result (λ r. IsCoreFault false given.now.bytes.now r.fault r.place) }
{
    let all = Asked::new(alloc, seed, &[])?;
    let followed = follow(alloc, &all, given.bytes, &[])?;
    Ok(CoreModule::Followed(FollowedCore {
        name: given.name,
        serves,
        followed,
    }))
}

/// Adds the names of those of these core modules from whose names others import.
pub(crate) fn push_core_names<'r>(
    core: &[CoreInput<'r>],
    names: &mut Set<&'r str>,
) -> Result<(), AllocError>
    ensures { (given : List Given) → HasNames given names.old.keys
        → OnOk result (HasNames (given ++ names_given (map core_given core.now)) names.new.keys) }
{
    for one in core {
        push_core_name(one, names)?;
    }
    Ok(())
}

/// Adds the name of a core module, if others import from it.
fn push_core_name<'r>(core: &CoreInput<'r>, names: &mut Set<&'r str>) -> Result<(), AllocError>
    ensures { (given : List Given) → HasNames given names.old.keys
        → OnOk result (HasNames (given ++ names_given (core_given core.now ∷ [])) names.new.keys) }
{
    if is_named(core.kind) {
        names.insert(core.name)?;
        Ok(())
    } else {
        Ok(())
    }
}

/// Whether other modules import from the name of a core module what it exports.
fn is_named(kind: CoreKind) -> bool
    ensures { result ≡ is_named kind }
{
    match kind {
        CoreKind::Adapter => true,
        CoreKind::Other => false,
        CoreKind::Library => true,
    }
}
