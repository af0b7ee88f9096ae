//! The canonical options that a component needs if it lifts an exported function.

ghost use Rattle.std.specs.Prelude.{◌≡◌, IfOk};
ghost use Rattle.wc_resolve.specs.Views.{function_view};
ghost use Rattle.wc_resolve.specs.WellFormed.{IsUsable};
ghost use Rattle.wc_world.specs.ExportOptions.{export_options, is_async_export};

use crate::RequiredOptions;
use crate::options::{passes_in_memory, passes_text, required, takes_text};
use std::alloc::{AllocError, Global};
use wc_resolve::{AbiVariant, Function, Resolve};

/// Whether a function that is lifted in this way is called asynchronously.
fn is_async_export(abi: AbiVariant) -> bool
    ensures { result ≡ is_async_export abi }
{
    matches!(
        abi,
        AbiVariant::GuestExportAsync | AbiVariant::GuestExportAsyncStackful
    )
}

impl RequiredOptions {
    /// The canonical options that a function of the `Resolve` needs if it is lifted in this way (component model,
    /// Canonical ABI, "canon lift"). It needs a memory if parameters or the result are passed indirectly or hold
    /// strings or lists. It needs a realloc if that is true of the parameters, which the caller's component writes.
    /// It needs an encoding if parameters or the result hold strings. The options also say whether it is called
    /// asynchronously.
    ///
    /// An asynchronous function returns its result by `task.return`, whose memory and encoding must be those of the
    /// function. They are the options of the same function lifted synchronously.
    ///
    /// The function must be usable (`Resolve::has_function`).
    ///
    /// # Errors
    ///
    /// `AllocError`: an allocation failed.
    pub fn for_export(
        alloc: Global,
        resolve: &Resolve,
        function: &Function,
        abi: AbiVariant,
    ) -> Result<RequiredOptions, AllocError>
        requires { IsUsable resolve.now (function_view function.now) }
        ensures { IfOk result (λ o. o.0
            ≡ export_options resolve.now (function_view function.now) abi) }
    {
        let signature = resolve.wasm_signature(alloc, AbiVariant::GuestExport, function)?;
        let memory = passes_in_memory(&signature, passes_text(resolve, function, true));
        let realloc = signature.indirect_params || takes_text(resolve, function, true);
        let encoding = passes_text(resolve, function, false);
        Ok(required(memory, realloc, encoding, is_async_export(abi)))
    }
}
