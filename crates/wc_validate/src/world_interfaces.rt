//! The interfaces of an encoder's world, made once for several modules.

ghost use Rattle.std.specs.Prelude.{◌≡◌, IfErr, IfOk, OnOk};
ghost use Rattle.wc_validate.specs.Explain.{IsPlace};
ghost use Rattle.wc_validate.specs.Private.ValidationInputs.{validation_input_of};
ghost use Rattle.wc_validate.specs.Private.WorldInterfaces.{AreInterfacesThere};
ghost use Rattle.wc_validate.specs.Refused.{IsRefusedAt};
ghost use Rattle.wc_validate.specs.Validate.{HasNoCause, IsRecordOf, IsValidateCause, adapter_input_of, module_record};

use crate::ValidateFault;
use crate::name_scope::{FEW_LOOKUPS, Interfaces};
use crate::place::Place;
use crate::requirements::RequiredExports;
use crate::validate::{
    ValidatedModule, ValidationInput, interfaces_for, validate_bytes, without_place,
};
use std::alloc::{AllocError, Global};
use std::marker::Model;
use wc_encoder::{ComponentEncoder, LibraryInfo};
use wc_maps::{Map, Set};
use wc_read::FuncType;
use wc_resolve::WorldKey;
use wc_texts::Refused;

/// How many modules are validated in about the time that it takes to index the interfaces of a world for all of them.
const FEW_MODULES: usize = 4;

/// An encoder, with the interfaces that its world imports and exports by the texts that name them in modules: they are
/// indexed once, where more than a few modules are validated. In contracts it is the encoder.
#[derive(Drop)]
pub struct WorldInterfaces<'a> {
    encoder: &'a ComponentEncoder,
    interfaces: Option<Interfaces<'a>>,
}

impl<'a> Model for WorldInterfaces<'a> {
    ghost use Rattle.std.specs.Prelude.{IfSome};
    ghost use Rattle.wc_encoder.specs.EncoderParts.{EncoderView};
    ghost use Rattle.wc_validate.specs.Private.WorldInterfaces.{AreInterfacesFor};

    ghost Value = { EncoderView };

    ghost view = { λ w. w.encoder.now };

    ghost invariant = { λ w. IfSome w.interfaces (AreInterfacesFor w.encoder.now) };
}

impl<'a> WorldInterfaces<'a> {
    /// The interfaces of an encoder's world, for so many modules.
    ///
    /// # Errors
    ///
    /// `AllocError`: an allocation failed.
    pub fn new(
        alloc: Global,
        encoder: &'a ComponentEncoder,
        modules: usize,
    ) -> Result<WorldInterfaces<'a>, AllocError>
        ensures { IfOk result (λ w. w ≡ encoder.now) }
    {
        if modules <= FEW_MODULES {
            return Ok(WorldInterfaces {
                encoder,
                interfaces: None,
            });
        }
        let interfaces = interfaces_for(alloc, encoder, FEW_LOOKUPS + 1)?;
        Ok(WorldInterfaces {
            encoder,
            interfaces: Some(interfaces),
        })
    }

    /// The input for an adapter or a library, among the interfaces.
    fn validation_input<'b>(
        &'b self,
        library_info: Option<&'b LibraryInfo>,
        required: RequiredExports<'b>,
    ) -> ValidationInput<'b>
        ensures input { validation_input_of result ≡ adapter_input_of self.now library_info.entry
            required.entry.keys.now.keys required.entry.functions.now.entries }
        ensures interfaces { AreInterfacesThere result.encoder.now result.interfaces }
    {
        ValidationInput {
            encoder: self.encoder,
            interfaces: self.interfaces.as_ref(),
            library: library_info,
            renames: None,
            required,
        }
    }

    /// Validates an adapter or a library for the encoder, as
    /// [`validate_adapter_module`](crate::validate_adapter_module) does.
    ///
    /// # Errors
    ///
    /// Those of [`validate_adapter_module`](crate::validate_adapter_module).
    pub fn validate_adapter_module<'b>(
        &'b self,
        alloc: Global,
        bytes: &[u8],
        required_by_import: &'b Map<String, FuncType>,
        exports: &'b Set<WorldKey>,
        library_info: Option<&'b LibraryInfo>,
    ) -> Result<ValidatedModule, ValidateFault>
        ensures recorded { IfOk result (λ v. IsRecordOf (adapter_input_of self.now
            library_info.entry exports.now.keys required_by_import.now.entries)
            bytes.now (module_record v)) }
        ensures fault { IfErr result (IsValidateCause (adapter_input_of self.now
            library_info.entry exports.now.keys required_by_import.now.entries) bytes.now) }
        // Without a fault there is no cause.
        ensures no_cause { OnOk result (HasNoCause (adapter_input_of self.now
            library_info.entry exports.now.keys required_by_import.now.entries) bytes.now) }
    {
        without_place(self.validate_adapter_module_explained(
            alloc,
            bytes,
            required_by_import,
            exports,
            library_info,
        ))
    }

    /// As [`WorldInterfaces::validate_adapter_module`]; but a module that is refused says what its fault is about, as
    /// [`validate_adapter_module_explained`](crate::validate_adapter_module_explained) does.
    ///
    /// # Errors
    ///
    /// Those of [`validate_adapter_module_explained`](crate::validate_adapter_module_explained).
    pub fn validate_adapter_module_explained<'b>(
        &'b self,
        alloc: Global,
        bytes: &[u8],
        required_by_import: &'b Map<String, FuncType>,
        exports: &'b Set<WorldKey>,
        library_info: Option<&'b LibraryInfo>,
    ) -> Result<ValidatedModule, Refused<ValidateFault, Place>>
        ensures recorded { IfOk result (λ v. IsRecordOf (adapter_input_of self.now
            library_info.entry exports.now.keys required_by_import.now.entries)
            bytes.now (module_record v)) }
        ensures fault { IfErr result (λ x. IsValidateCause (adapter_input_of self.now
            library_info.entry exports.now.keys required_by_import.now.entries) bytes.now x.fault) }
        ensures place { IfErr result (IsRefusedAt (IsPlace (adapter_input_of self.now
            library_info.entry exports.now.keys required_by_import.now.entries) bytes.now)) }
        // Without a fault there is no cause.
        ensures no_cause { OnOk result (HasNoCause (adapter_input_of self.now
            library_info.entry exports.now.keys required_by_import.now.entries) bytes.now) }
    {
        let required = RequiredExports {
            keys: exports,
            functions: required_by_import,
        };
        let validation_input = self.validation_input(library_info, required);
        validate_bytes(alloc, validation_input, bytes)
    }
}
