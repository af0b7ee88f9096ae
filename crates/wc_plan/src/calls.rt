//! The functions that modules import.

ghost use Rattle.std.specs.Prelude.{◌≡◌, IfOk};
ghost use Rattle.std.specs.Option.{option_map};
ghost use Rattle.wc_names.specs.Views.{import_view};
ghost use Rattle.wc_plan.specs.Calls.{call_of};
ghost use Rattle.wc_world.specs.Nameable.{IsNameable};
ghost use Rattle.wc_plan.specs.PlanViews.{call_view};
ghost use Rattle.wc_plan.specs.Views.{OwnerView};

use std::alloc::{AllocError, Global};
use wc_names::Import;
use wc_resolve::{AbiVariant, Resolve};

/// A function that a module imports: the name of its interface, none of a function of the world itself; and its own
/// name, and how it is called.
pub(crate) type Call = (Option<String>, (String, AbiVariant));

/// The interface's name, the function's name and the variant; `None` of an import that is no
/// function of the world.
pub(crate) fn call_of(
    alloc: Global,
    resolve: &Resolve,
    import: &Import,
) -> Result<Option<Call>, AllocError>
    requires { IsNameable resolve.now (import_view import.now) }
    ensures { (owner : OwnerView) → IfOk result (λ c. option_map (call_view owner) c
        ≡ call_of resolve.now owner (import_view import.now)) }
{
    let Some(function) = import.function() else {
        return Ok(None);
    };
    match function.interface {
        Some((key, _id)) => {
            let interface = resolve.name_world_key(alloc, key)?;
            let name = String::from_str(alloc, function.name)?;
            Ok(Some((Some(interface), (name, function.abi))))
        }
        None => {
            let name = String::from_str(alloc, function.name)?;
            Ok(Some((None, (name, function.abi))))
        }
    }
}
