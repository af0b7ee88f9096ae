//! The canonical options that a component needs if it lowers an imported function.

ghost use Rattle.std.specs.Prelude.{◌≡◌, ◌||◌, IfOk, false};
ghost use Rattle.std.specs.List.{list_any};
ghost use Rattle.std.specs.Option.{option_map_or};
ghost use Rattle.wc_resolve.specs.Views.{function_view};
ghost use Rattle.wc_resolve.specs.WellFormed.{IsUsable};
ghost use Rattle.wc_world.specs.Options.{any_param, bit_if, function_does, holds_text, is_async_import, option_bits};

use bitflags::{Flag, Flags};
use std::alloc::{AllocError, Global};
use wc_resolve::{AbiVariant, Function, Resolve, WasmSignature, WitType};

/// The canonical options (component model, Canonical ABI, "canonopt") that a lowered or a lifted function needs. They
/// are a set: `bitflags::Flags` has its operations.
#[derive(Clone, Copy, Debug, PartialEq, Eq)]
pub struct RequiredOptions(u8);

impl RequiredOptions {
    /// A memory: parameters or the result are passed in it.
    pub const MEMORY: RequiredOptions = RequiredOptions(1);
    /// A realloc: the result is put into memory; of a lifted function the parameters are.
    pub const REALLOC: RequiredOptions = RequiredOptions(2);
    /// How strings are encoded.
    pub const STRING_ENCODING: RequiredOptions = RequiredOptions(4);
    /// The function is called asynchronously.
    pub const ASYNC: RequiredOptions = RequiredOptions(8);

    const ALL: &'static [Flag<RequiredOptions>] = &[
        Flag {
            name: "MEMORY",
            value: RequiredOptions(1),
        },
        Flag {
            name: "REALLOC",
            value: RequiredOptions(2),
        },
        Flag {
            name: "STRING_ENCODING",
            value: RequiredOptions(4),
        },
        Flag {
            name: "ASYNC",
            value: RequiredOptions(8),
        },
    ];
}

impl Flags for RequiredOptions {
    type Bits = u8;

    ghost use Rattle.std.specs.Prelude.{⊤, [], ◌∷◌, codes};

    ghost exact = { ⊤ };

    ghost table = { (codes "MEMORY", 1) ∷ (codes "REALLOC", 2)
        ∷ (codes "STRING_ENCODING", 4) ∷ (codes "ASYNC", 8) ∷ [] };

    ghost set_of = { λ o. o.0 };

    fn flags<'a>() -> &'a [Flag<RequiredOptions>] {
        RequiredOptions::ALL
    }

    fn bits(&self) -> u8 {
        self.0
    }

    fn from_bits_retain(bits: u8) -> RequiredOptions {
        RequiredOptions(bits)
    }
}

/// The bits, if they are needed.
fn bit_if(bit: u8, is_needed: bool) -> u8
    ensures { result ≡ bit_if bit is_needed }
{
    if is_needed { bit } else { 0 }
}

/// The set of the options that are needed.
pub(crate) fn required(
    memory: bool,
    realloc: bool,
    encoding: bool,
    is_async: bool,
) -> RequiredOptions
    ensures { result.0 ≡ option_bits memory realloc encoding is_async }
{
    let memory = bit_if(RequiredOptions::MEMORY.0, memory);
    let realloc = bit_if(RequiredOptions::REALLOC.0, realloc);
    let encoding = bit_if(RequiredOptions::STRING_ENCODING.0, encoding);
    let is_async = bit_if(RequiredOptions::ASYNC.0, is_async);
    RequiredOptions(memory + (realloc + (encoding + is_async)))
}

/// Whether a function that is lowered in this way is called asynchronously.
fn is_async_import(abi: AbiVariant) -> bool
    ensures { result ≡ is_async_import abi }
{
    matches!(abi, AbiVariant::GuestImportAsync)
}

/// Whether a type holds a string, or, if lists count too, a string or a list.
fn holds_text(resolve: &Resolve, ty: WitType, lists: bool) -> bool
    ensures { result ≡ holds_text lists resolve.now ty }
{
    if lists {
        resolve.holds_string_or_list(ty)
    } else {
        resolve.holds_string(ty)
    }
}

/// Whether there is a type, and its values hold a string (or, where `lists` is true, a list).
fn optional_holds_text(resolve: &Resolve, ty: Option<WitType>, lists: bool) -> bool
    ensures { result ≡ option_map_or (holds_text lists resolve.now) ty false }
{
    match ty {
        Some(ty) => holds_text(resolve, ty, lists),
        None => false,
    }
}

/// Whether one of the parameters holds a string (or, where `lists` is true, a list).
fn params_hold_text(resolve: &Resolve, params: &[(String, WitType)], lists: bool) -> bool
    ensures { result ≡ list_any (λ p. holds_text lists resolve.now p.1) params.now }
{
    params
        .iter()
        .any(|param| holds_text(resolve, param.1, lists))
}

/// Whether one of a function's parameters holds a string (or, where `lists` is true, a list).
pub(crate) fn takes_text(resolve: &Resolve, function: &Function, lists: bool) -> bool
    ensures { result ≡ any_param (holds_text lists resolve.now) (function_view function.now) }
{
    params_hold_text(resolve, &function.params, lists)
}

/// Whether a parameter or the result of a function holds a string (or, where `lists` is true, a list).
pub(crate) fn passes_text(resolve: &Resolve, function: &Function, lists: bool) -> bool
    ensures { result ≡ function_does (holds_text lists resolve.now) (function_view function.now) }
{
    takes_text(resolve, function, lists) || optional_holds_text(resolve, function.result, lists)
}

/// Whether something is passed in memory.
pub(crate) fn passes_in_memory(signature: &WasmSignature, passes_text: bool) -> bool
    ensures { result ≡ (signature.now.indirect_params || (signature.now.retptr || passes_text)) }
{
    signature.indirect_params || signature.retptr || passes_text
}

/// Decides which options lowered functions need.
pub trait ImportOptions {
    ghost use Rattle.wc_world.specs.Options.{OptionsOf};

    // The options, as bits: the same for the same functions.
    ghost options_of: { Self → OptionsOf };

    /// The options that a function of the `Resolve` needs if it is imported in this way. They are the same for all
    /// functions with the same name, kind, parameters and result.
    ///
    /// The function must be usable (`Resolve::has_function`).
    ///
    /// # Errors
    ///
    /// `AllocError`: an allocation failed.
    fn for_import(
        &self,
        alloc: Global,
        resolve: &Resolve,
        function: &Function,
        abi: AbiVariant,
    ) -> Result<RequiredOptions, AllocError>
        requires { IsUsable resolve.now (function_view function.now) }
        ensures { IfOk result (λ o. o.0
            ≡ options_of self.now resolve.now (function_view function.now) abi) };
}

/// Options by the values that functions pass: memory, if parameters or the result are passed indirectly or hold
/// strings or lists; a realloc, if the result holds some; an encoding, if one of them holds strings. The `Resolve`
/// that is passed as an argument says which types hold some (`Resolve::holds_string`,
/// `Resolve::holds_string_or_list`).
#[derive(Clone, Copy, Debug, Default, PartialEq, Eq)]
pub struct PlainOptions;

impl ImportOptions for PlainOptions {
    ghost use Rattle.wc_world.specs.Options.{plain_options};

    ghost options_of = { λ _. plain_options };

    fn for_import(
        &self,
        alloc: Global,
        resolve: &Resolve,
        function: &Function,
        abi: AbiVariant,
    ) -> Result<RequiredOptions, AllocError> {
        let signature = resolve.wasm_signature(alloc, abi, function)?;
        let memory = passes_in_memory(&signature, passes_text(resolve, function, true));
        let realloc = optional_holds_text(resolve, function.result, true);
        let encoding = passes_text(resolve, function, false);
        Ok(required(memory, realloc, encoding, is_async_import(abi)))
    }
}
