//! Functions that other modules import, and that are not exported as they are required.

ghost use Rattle.std.specs.Prelude.{◌≡◌, IfErr, IfOk};
ghost use Rattle.wc_read.specs.Modules.{HaveTypes, module_value};
ghost use Rattle.wc_validate.specs.Exports.Record.{AreExportsIn};
ghost use Rattle.wc_validate.specs.Private.Explain.{AreMetByIndex, IsFunctionLackIn, IsFunctionPlaced, IsUnexported, RefusesFunctions};
ghost use Rattle.wc_validate.specs.Private.Requirements.{MeetsFunctions};

use crate::ValidateFault;
use crate::place::{Place, Subject, TypeDifference};
use crate::refused::{RefusedModule, is_memory};
use crate::requirements::exported_functions::{check_function, typed_functions};
use std::alloc::{AllocError, Global};
use wc_maps::Map;
use wc_read::{FuncType, Module};
use wc_texts::Refused;

/// A required function that is not exported as it is required, and why it is refused.
#[derive(Drop)]
pub(crate) struct LackingFunction<'r> {
    pub(crate) name: &'r str,
    pub(crate) ty: &'r FuncType,
    pub(crate) fault: ValidateFault,
}

/// The first required function that is not exported as it is required, if there is one.
fn first_unexported<'r>(
    alloc: Global,
    index: &Map<&str, &FuncType>,
    functions: &'r Map<String, FuncType>,
) -> Result<(), LackingFunction<'r>>
    ensures met { AreMetByIndex index.now.entries functions.now.entries result }
    ensures lacking { IfErr result (IsFunctionLackIn index.now.entries functions.now.entries) }
{
    for (name, ty) in functions.iter() {
        let text = name.as_str();
        if let Err(fault) = check_function(alloc, index, text, ty) {
            return Err(LackingFunction {
                name: text,
                ty,
                fault,
            });
        }
    }
    Ok(())
}

/// A function that is not exported as it is required: the export of its name, with the required type and its own; or
/// that it is missing, where no function of its name is exported.
fn unexported_function(
    alloc: Global,
    index: &Map<&str, &FuncType>,
    name: &str,
    ty: &FuncType,
) -> Result<Place, AllocError>
    ensures { IfOk result (IsUnexported index.now.entries name.now ty.now) }
{
    let Some(own) = index.get(name) else {
        let missing = String::from_str(alloc, name)?;
        return Ok(Place {
            subject: Subject::MissingExport(missing),
            types: None,
        });
    };
    let wanted = ty.clone(alloc)?;
    let found = (*own).clone(alloc)?;
    Ok(Place {
        subject: Subject::Export(String::from_str(alloc, name)?),
        types: Some(TypeDifference { wanted, found }),
    })
}

/// The required function that is refused.
fn function_place(
    alloc: Global,
    index: &Map<&str, &FuncType>,
    lacking: &LackingFunction<'_>,
) -> Result<Option<Place>, AllocError>
    ensures { IfOk result (IsFunctionPlaced index.now.entries lacking.now) }
{
    if is_memory(&lacking.fault) {
        return Ok(None);
    }
    let place = unexported_function(alloc, index, lacking.name, lacking.ty)?;
    Ok(Some(place))
}

/// A module that doesn't export a function as it is required, with that.
fn function_refusal(
    alloc: Global,
    index: &Map<&str, &FuncType>,
    lacking: LackingFunction<'_>,
) -> Result<RefusedModule, AllocError>
    ensures fault { IfOk result (λ x. x.fault ≡ lacking.entry.fault) }
    ensures place { IfOk result (λ x. IsFunctionPlaced index.now.entries lacking.entry x.place) }
{
    let place = function_place(alloc, index, &lacking)?;
    Ok(Refused {
        fault: lacking.fault,
        place,
    })
}

/// Checks that a module exports these functions, with these types.
///
/// # Errors
///
/// Those of the first function that is not exported so, which they are about.
pub(crate) fn check_functions<'m>(
    alloc: Global,
    module: &'m Module<'m>,
    functions: &Map<String, FuncType>,
) -> Result<(), RefusedModule>
    requires items { AreExportsIn «module».now «module».now.exports.items }
    requires typed { HaveTypes (module_value «module».now) }
    ensures met { MeetsFunctions «module».now «module».now.exports.items functions.now.entries
        result }
    ensures refused { RefusesFunctions «module».now functions.now.entries result }
{
    let index = typed_functions(alloc, *functions.hasher(), module, &module.exports)?;
    match first_unexported(alloc, &index, functions) {
        Ok(()) => Ok(()),
        Err(lacking) => Err(function_refusal(alloc, &index, lacking)?),
    }
}
