//! The export at which validation stops.

ghost use Rattle.std.specs.Prelude.{◌<◌, IfOk, length};
ghost use Rattle.wc_read.specs.Modules.{HaveTypes, module_value};
ghost use Rattle.wc_validate.specs.Exports.Record.{AreExportsIn};
ghost use Rattle.wc_validate.specs.Private.Explain.{AreExportsRefusedAt, IsExportStop, IsMismatchPlaced};

use crate::ValidateFault;
use crate::exports::record::exported_type;
use crate::externs::Extern;
use crate::name_fault::NameFault;
use crate::place::{Place, Subject, TypeDifference};
use crate::refused::{RefusedExport, RefusedModule};
use std::alloc::{AllocError, Global};
use wc_read::{FuncType, Module};
use wc_texts::Refused;

/// An export that is refused for its type, with the type that its name fixes and its own.
fn export_place(
    alloc: Global,
    module: &Module<'_>,
    exports: &[wc_read::Export<'_>],
    index: usize,
    wanted: FuncType,
) -> Result<Place, AllocError>
    requires in_range { index < length exports.now }
    requires items { AreExportsIn «module».now exports.now }
    requires typed { HaveTypes (module_value «module».now) }
    requires stopped { IsExportStop «module».now exports.now index
        (NameFault.SignatureMismatch wanted) }
    ensures { IfOk result (IsMismatchPlaced «module».now exports.now index wanted) }
{
    let export = &exports[index];
    // Only functions have signatures.
    let Extern::Func(ty) = exported_type(module, export.kind, export.index) else {
        unreachable!()
    };
    let found = ty.clone(alloc)?;
    let name = String::from_str(alloc, export.name)?;
    Ok(Place {
        subject: Subject::Export(name),
        types: Some(TypeDifference { wanted, found }),
    })
}

/// Whether the packages that worlds name exist.
pub(crate) fn export_refusal(
    alloc: Global,
    module: &Module<'_>,
    exports: &[wc_read::Export<'_>],
    refused: RefusedExport,
) -> Result<RefusedModule, AllocError>
    requires in_range { refused.index < length exports.now }
    requires items { AreExportsIn «module».now exports.now }
    requires typed { HaveTypes (module_value «module».now) }
    requires stopped { IsExportStop «module».now exports.now refused.index refused.fault }
    ensures { IfOk result (AreExportsRefusedAt «module».now exports.now refused) }
{
    let (index, cause) = (refused.index, refused.fault);
    // An export is refused for its type, or an allocation failed.
    let NameFault::SignatureMismatch(wanted) = cause else {
        return Err(AllocError);
    };
    let place = export_place(alloc, module, exports, index, wanted)?;
    Ok(Refused {
        fault: ValidateFault::SignatureMismatch,
        place: Some(place),
    })
}
