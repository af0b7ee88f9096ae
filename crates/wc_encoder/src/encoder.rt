//! Encoders of components.

ghost use Rattle.std.specs.Prelude.{◌≡◌, IfErr, IfOk, map, option_copied};
ghost use Rattle.wc_resolve.specs.Views.{key_view};
ghost use Rattle.wc_adapters.specs.Adapters.{adapter_entry};
ghost use Rattle.wc_encoder.specs.EncoderParts.{given_view, parts_view};
ghost use Rattle.wc_encoder.specs.Fault.{IsEncoderCause};
ghost use Rattle.wc_encoder.specs.WellFormed.{IsWellFormed};

use crate::encoder_parts::{EncoderParts, Metadata};
use crate::fault::EncoderFault;
use crate::well_formed::check;
use std::alloc::Global;
use std::marker::Model;
use wc_adapters::Adapter;
use wc_dedupe::ModuleImportMap;
use wc_maps::{Map, Set};
use wc_resolve::WorldKey;

/// The parts of a component: a main module, the world that it is encoded for, and adapters
/// and libraries beside it. Its parts are well-formed: they have none of the faults that `build`
/// lists.
#[derive(Drop)]
pub struct ComponentEncoder {
    parts: EncoderParts,
    /// The main module's bytes as they were given, where some of its imports were renamed after that.
    given: Option<Vec<u8>>,
}

impl Model for ComponentEncoder {
    ghost use Rattle.wc_encoder.specs.EncoderParts.{EncoderView};

    ghost Value = { EncoderView };

    ghost use Rattle.wc_encoder.specs.EncoderParts.{given_view};
    ghost use Rattle.wc_encoder.specs.WellFormed.{IsWellFormed};

    ghost view = { λ e. given_view e.given e.parts };

    ghost invariant = { λ e. IsWellFormed (given_view e.given e.parts) };
}

impl ComponentEncoder {
    /// The encoder of these parts. The bytes of modules are not read.
    ///
    /// # Errors
    ///
    /// Of several causes, the first in this order is named; `Memory` may come in place of any.
    ///
    /// - `UnknownWorld`: the `Resolve` has no world at the index.
    /// - `NotAnExport`: the world doesn't export a key of `main_module_exports`, or of an adapter's
    ///   `required_exports`.
    /// - `TypeExported`: the world exports a type.
    /// - `InterfaceTwice`: the world exports one interface under two keys.
    /// - `DependencyLater`: an interface that the world exports depends directly on one that is
    ///   exported after it under its own id.
    /// - `ImportNameClash`: two imports of the world have one name.
    /// - `Memory`: an allocation failed.
    pub fn build(alloc: Global, parts: EncoderParts) -> Result<ComponentEncoder, EncoderFault>
        ensures ok { IfOk result (λ e. e ≡ parts_view parts) }
        ensures formed { IfOk result IsWellFormed }
        ensures fault { IfErr result (IsEncoderCause (parts_view parts)) }
    {
        ComponentEncoder::build_given(alloc, parts, None)
    }

    /// As `build`; and the main module was given as other bytes, before its repeated imports were renamed. These bytes
    /// are not read. A fault of reading the main module is about a byte of them. `None`: no import was renamed.
    ///
    /// # Errors
    ///
    /// Those of `build`.
    #[tactic(auto, using(crate::proofs::GivenLemmas::given_cause, crate::proofs::GivenLemmas::given_formed))]
    pub fn build_given(
        alloc: Global,
        parts: EncoderParts,
        given: Option<Vec<u8>>,
    ) -> Result<ComponentEncoder, EncoderFault>
        ensures ok { IfOk result (λ e. e ≡ given_view given parts) }
        ensures formed { IfOk result IsWellFormed }
        ensures fault { IfErr result (IsEncoderCause (given_view given parts)) }
    {
        check(alloc, &parts)?;
        Ok(ComponentEncoder { parts, given })
    }

    /// Says that the parts are well-formed, to proofs of callers. It does nothing when it runs.
    pub fn well_formedness(&self)
        ensures { IsWellFormed self.now }
    {
        let _ = &self.parts;
    }

    /// The main module's bytes.
    pub fn module(&self) -> &[u8]
        ensures { result.now ≡ self.now.module_bytes }
    {
        &self.parts.module
    }

    /// The main module's bytes as they were given: before its repeated imports were renamed.
    pub fn given_module(&self) -> &[u8]
        ensures { result.now ≡ self.now.given_bytes }
    {
        match &self.given {
            Some(given) => given,
            None => &self.parts.module,
        }
    }

    /// The original names of the main module's renamed imports, where some were renamed.
    pub fn module_import_map(&self) -> Option<&ModuleImportMap>
        ensures { option_copied result ≡ self.now.module_import_map }
    {
        self.parts.module_import_map.as_ref()
    }

    /// A `Resolve`, and the world of it for which modules are encoded.
    pub fn metadata(&self) -> &Metadata
        ensures resolve { result.now.resolve ≡ self.now.resolve }
        ensures world { result.now.world.0 ≡ self.now.world }
    {
        &self.parts.metadata
    }

    /// The keys of the world's exports that the main module itself has to export. Those of an
    /// adapter or a library are in its `required_exports`.
    pub fn main_module_exports(&self) -> &Set<WorldKey>
        ensures { map key_view result.now.keys ≡ self.now.main_module_exports }
    {
        &self.parts.main_module_exports
    }

    /// Adapters and libraries by their names.
    pub fn adapters(&self) -> &Map<String, Adapter>
        ensures { map adapter_entry result.now.entries ≡ self.now.adapters }
    {
        &self.parts.adapters
    }

    /// Whether names of the older scheme are refused.
    pub fn reject_legacy_names(&self) -> bool
        ensures { result ≡ self.now.reject_legacy_names }
    {
        self.parts.reject_legacy_names
    }

    /// Whether adapters grow memory for themselves, in place of calling the main module's realloc.
    pub fn realloc_via_memory_grow(&self) -> bool
        ensures { result ≡ self.now.realloc_via_memory_grow }
    {
        self.parts.realloc_via_memory_grow
    }

    /// The name of the export that is the task hook.
    pub fn task_hook(&self) -> &str
        ensures { result.now ≡ self.now.task_hook }
    {
        &self.parts.task_hook
    }
}
