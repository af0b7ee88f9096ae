//! Two memories, and a callback that is missing, among the exports of a module.

ghost use Rattle.std.specs.Prelude.{◌≡◌, IfOk};
ghost use Rattle.wc_validate.specs.Private.Explain.{IsCallbackPlaced, IsMemoryPlaced};

use crate::ValidateFault;
use crate::place::{Place, Subject};
use crate::refused::RefusedModule;
use std::alloc::{AllocError, Global};
use wc_texts::Refused;

/// A module with a second memory of this name.
pub(crate) fn memory_refusal(alloc: Global, name: &str) -> Result<RefusedModule, AllocError>
    ensures fault { IfOk result (λ x. x.fault ≡ ValidateFault.SeveralMemoryExports) }
    ensures place { IfOk result (λ x. IsMemoryPlaced name.now x.place) }
{
    let name = String::from_str(alloc, name)?;
    Ok(Refused {
        fault: ValidateFault::SeveralMemoryExports,
        place: Some(Place {
            subject: Subject::Export(name),
            types: None,
        }),
    })
}

/// A module that has no callback for its export of this name.
pub(crate) fn callback_refusal(alloc: Global, name: &str) -> Result<RefusedModule, AllocError>
    ensures fault { IfOk result (λ x. x.fault ≡ ValidateFault.MissingCallback) }
    ensures place { IfOk result (λ x. IsCallbackPlaced name.now x.place) }
{
    let mut callback = String::from_str(alloc, "[callback]")?;
    callback.push_str(name)?;
    Ok(Refused {
        fault: ValidateFault::MissingCallback,
        place: Some(Place {
            subject: Subject::MissingExport(callback),
            types: None,
        }),
    })
}
