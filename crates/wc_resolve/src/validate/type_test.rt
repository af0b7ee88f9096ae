//! Tests of the types of all parameters and results, and of all types that types contain by value.

ghost use Rattle.std.specs.Prelude.{◌↔◌, All, IsTrue, IfOk, map};
ghost use Rattle.std.specs.Option.{IfSome};
ghost use Rattle.wc_resolve.specs.Views.{function_entry, function_view, interface_view, item_view, kind_view, type_view, world_entry, world_view};
ghost use Rattle.wc_texts.specs.Names.{named_view};
ghost use Rattle.wc_resolve.specs.Kinds.{DoesInterfacePass, DoesItemPass, DoesTypePass, DoesWorldPass, SignatureHasOnly, contained_types};

use crate::kinds::contained_types;
use crate::{Function, Interface, TypeDef, TypeDefKind, WitType, World, WorldItem, WorldKey};
use std::alloc::{AllocError, Global};
use wc_maps::Map;

/// A test of a type.
pub(crate) trait TypeTest {
    ghost use Rattle.wc_resolve.specs.declared.types.WitType.{WitType};

    ghost Passes: { Self → WitType → Type 0 };

    fn passes(&self, ty: WitType) -> bool
        ensures { IsTrue result ↔ Passes self.now ty };
}

fn all_params<T: TypeTest>(test: &T, params: &[(String, WitType)]) -> bool
    ensures { IsTrue result ↔ All (λ p. T.Passes test.now p.1) (map named_view params.now) }
{
    params.iter().all(|param| test.passes(param.1))
}

fn optional_passes<T: TypeTest>(test: &T, ty: Option<WitType>) -> bool
    ensures { IsTrue result ↔ IfSome ty (T.Passes test.now) }
{
    match ty {
        Some(ty) => test.passes(ty),
        None => true,
    }
}

/// Whether all parameters and the result of a function pass.
pub(crate) fn function_passes<T: TypeTest>(test: &T, function: &Function) -> bool
    ensures { IsTrue result ↔ SignatureHasOnly (T.Passes test.now) (function_view function.now) }
{
    all_params(test, &function.params) && optional_passes(test, function.result)
}

/// Whether all types that a type contains by value pass.
pub(crate) fn kind_passes<T: TypeTest>(
    alloc: Global,
    test: &T,
    kind: &TypeDefKind,
) -> Result<bool, AllocError>
    ensures { IfOk result (λ b. IsTrue b ↔
        All (T.Passes test.now) (contained_types (kind_view kind.now))) }
{
    let types = contained_types(alloc, kind)?;
    Ok(types.iter().all(|ty| test.passes(*ty)))
}

fn entries_pass<T: TypeTest>(test: &T, entries: &Map<WorldKey, WorldItem>) -> bool
    ensures { IsTrue result ↔ All (λ e. DoesItemPass (T.Passes test.now) e.1)
        (map world_entry entries.now.entries) }
{
    entries.iter().all(|(_key, item)| item_passes(test, item))
}

fn item_passes<T: TypeTest>(test: &T, item: &WorldItem) -> bool
    ensures { IsTrue result ↔ DoesItemPass (T.Passes test.now) (item_view item.now) }
{
    match item {
        WorldItem::Function(function) => function_passes(test, function),
        WorldItem::Interface { .. } | WorldItem::TypeItem { .. } => true,
    }
}

#[tactic(auto, unfolding(crate::specs::Kinds::DoesWorldPass))]
pub(crate) fn world_passes<T: TypeTest>(test: &T, world: &World) -> bool
    ensures { IsTrue result ↔ DoesWorldPass (T.Passes test.now) (world_view world.now) }
{
    entries_pass(test, &world.imports) && entries_pass(test, &world.exports)
}

fn functions_pass<T: TypeTest>(test: &T, functions: &Map<String, Function>) -> bool
    ensures { IsTrue result ↔ All (λ e. SignatureHasOnly (T.Passes test.now) e.1)
        (map function_entry functions.now.entries) }
{
    functions
        .iter()
        .all(|(_name, function)| function_passes(test, function))
}

#[tactic(auto, unfolding(crate::specs::Kinds::DoesInterfacePass))]
pub(crate) fn interface_passes<T: TypeTest>(test: &T, interface: &Interface) -> bool
    ensures { IsTrue result
        ↔ DoesInterfacePass (T.Passes test.now) (interface_view interface.now) }
{
    functions_pass(test, &interface.functions)
}

#[tactic(auto, unfolding(crate::specs::Kinds::DoesTypePass))]
pub(crate) fn type_def_passes<T: TypeTest>(
    alloc: Global,
    test: &T,
    def: &TypeDef,
) -> Result<bool, AllocError>
    ensures { IfOk result (λ b. IsTrue b
        ↔ DoesTypePass (T.Passes test.now) (type_view def.now)) }
{
    kind_passes(alloc, test, &def.kind)
}
