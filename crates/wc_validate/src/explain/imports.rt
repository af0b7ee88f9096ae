//! The import at which validation stops.

ghost use Rattle.std.specs.Prelude.{◌≡◌, ◌<◌, IfOk, length};
ghost use Rattle.wc_validate.specs.Explain.{an_import, subject_view};
ghost use Rattle.wc_validate.specs.Private.Explain.{AreMismatchedTypes, IsImportRefused, IsNameRefusal, IsRefusedByName};
ghost use Rattle.wc_validate.specs.Private.Imports.Contexts.{IsTypeIn};

use crate::ValidateFault;
use crate::imports::record::ImportContext;
use crate::name_fault::NameFault;
use crate::place::{Place, Subject, TypeDifference};
use crate::refused::{ImportFault, RefusedImport, RefusedModule, is_memory};
use std::alloc::{AllocError, Global};
use wc_read::{FuncType, ImportType};
use wc_texts::Refused;

/// An import, by its names and its index.
fn import_subject(
    alloc: Global,
    import: &wc_read::Import<'_>,
    index: usize,
) -> Result<Subject, AllocError>
    ensures { IfOk result (λ x. subject_view x
        ≡ an_import import.now.module.now import.now.name.now index) }
{
    let module_name = String::from_str(alloc, import.module)?;
    let name = String::from_str(alloc, import.name)?;
    Ok(Subject::Import {
        module_name,
        name,
        index,
    })
}

/// The types that differ of an import whose type is another than its name fixes: that one, and its own.
fn mismatched_types(
    alloc: Global,
    context: &ImportContext<'_>,
    import: &wc_read::Import<'_>,
    wanted: FuncType,
) -> Result<TypeDifference, AllocError>
    requires typed { IsTypeIn (length context.now.types.now) import.now.ty }
    requires refused { IsRefusedByName context.now import.now
        (NameFault.SignatureMismatch wanted) }
    ensures { IfOk result (AreMismatchedTypes context.now import.now wanted) }
{
    // Only functions have signatures.
    let ImportType::Func(index) = import.ty else {
        unreachable!()
    };
    let found = context.types[index as usize].clone(alloc)?;
    Ok(TypeDifference { wanted, found })
}

/// Why an import is refused whose name is refused; of a type that is not the one that the name fixes, with both.
pub(crate) fn name_refusal(
    alloc: Global,
    context: &ImportContext<'_>,
    import: &wc_read::Import<'_>,
    cause: NameFault,
) -> Result<ImportFault, AllocError>
    requires typed { IsTypeIn (length context.now.types.now) import.now.ty }
    requires refused { IsRefusedByName context.now import.now cause }
    ensures { IfOk result (IsNameRefusal context.now import.now cause) }
{
    match cause {
        NameFault::SignatureMismatch(wanted) => {
            let types = mismatched_types(alloc, context, import, wanted)?;
            Ok(ImportFault {
                fault: ValidateFault::SignatureMismatch,
                types: Some(types),
            })
        }
        other => {
            let fault = ValidateFault::from(other);
            Ok(ImportFault { fault, types: None })
        }
    }
}

/// A module whose import is refused, with the import and the types that differ.
pub(crate) fn import_refusal(
    alloc: Global,
    imports: &[wc_read::Import<'_>],
    refused: RefusedImport,
) -> Result<RefusedModule, AllocError>
    requires { refused.index < length imports.now }
    ensures { IfOk result (IsImportRefused imports.now refused) }
{
    let (index, cause) = (refused.index, refused.cause);
    if is_memory(&cause.fault) {
        return Ok(Refused::without_place(cause.fault));
    }
    let subject = import_subject(alloc, &imports[index], index)?;
    Ok(Refused {
        fault: cause.fault,
        place: Some(Place {
            subject,
            types: cause.types,
        }),
    })
}
