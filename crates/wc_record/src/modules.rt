//! The records of core modules.

ghost use Rattle.std.specs.Prelude.{◌≡◌, IfOk};
ghost use Rattle.std.specs.Str.{IsUtf8};
ghost use Rattle.wc_validate.specs.Validate.{module_record};
ghost use Rattle.wc_record.specs.Texts.{module_text};

use crate::maps::EntryToJson;
use crate::objects::{begin_object, end_object, put_kind_with, put_member};
use crate::to_json::{ToJson, begin_array, end_array};
use json::Writer;
use std::alloc::{AllocError, Global};
use wc_names::{Export, Import};
use wc_validate::{ExportMap, ImportInstance, ImportMap, ValidatedModule};

/// An import under its name.
impl EntryToJson<String> for Import {
    ghost use Rattle.std.specs.Prelude.{List, ℕ, string_bytes};
    ghost use Rattle.wc_names.specs.Views.{ImportView, import_view};
    ghost use Rattle.wc_record.specs.Modules.{import_entry_json};

    ghost EntryView = { List ℕ × ImportView };

    ghost entry_view = { λ name import. (string_bytes name, import_view import) };

    ghost entry_json = { import_entry_json };

    fn write_entry(&self, name: &String, out: &mut Writer) -> Result<(), AllocError> {
        begin_object(out)?;
        put_member(out, "name", name)?;
        put_member(out, "import", self)?;
        end_object(out)
    }
}

impl ToJson for ImportInstance {
    ghost use Rattle.wc_validate.specs.Imports.Entries.{InstanceRecord};
    ghost use Rattle.wc_validate.specs.Imports.Instances.{instance_view};
    ghost use Rattle.wc_record.specs.Modules.{import_instance_json};

    ghost View = { InstanceRecord };

    ghost view = { instance_view };

    ghost json = { import_instance_json };

    fn write(&self, out: &mut Writer) -> Result<(), AllocError> {
        match self {
            ImportInstance::Whole(which) => put_kind_with(out, "whole", "which", which),
            ImportInstance::Names(names) => put_kind_with(out, "names", "names", names),
        }
    }
}

/// The imports from the module of this name.
impl EntryToJson<String> for ImportInstance {
    ghost use Rattle.std.specs.Prelude.{List, ℕ, string_bytes};
    ghost use Rattle.wc_validate.specs.Imports.Entries.{InstanceRecord};
    ghost use Rattle.wc_validate.specs.Imports.Instances.{instance_view};
    ghost use Rattle.wc_record.specs.Modules.{instance_entry_json};

    ghost EntryView = { List ℕ × InstanceRecord };

    ghost entry_view = { λ name instance. (string_bytes name, instance_view instance) };

    ghost entry_json = { instance_entry_json };

    fn write_entry(&self, name: &String, out: &mut Writer) -> Result<(), AllocError> {
        begin_object(out)?;
        put_member(out, "module", name)?;
        put_member(out, "instance", self)?;
        end_object(out)
    }
}

impl ToJson for ImportMap {
    ghost use Rattle.std.specs.Prelude.{map};
    ghost use Rattle.wc_validate.specs.Imports.Entries.{Records};
    ghost use Rattle.wc_record.specs.Modules.{instance_entry_json};
    ghost use Rattle.wc_texts.specs.Shapes.{array_of};

    ghost View = { Records };

    ghost view = { λ imports. imports };

    ghost json = { λ records. array_of (map instance_entry_json records) };

    fn write(&self, out: &mut Writer) -> Result<(), AllocError> {
        self.modules().write(out)
    }
}

/// An export under its name.
impl<'a> ToJson for (&'a str, &'a Export) {
    ghost use Rattle.std.specs.Prelude.{List, ℕ};
    ghost use Rattle.wc_names.specs.ExportViews.{ExportView};
    ghost use Rattle.wc_validate.specs.Exports.Iter.{export_shown};
    ghost use Rattle.wc_record.specs.Modules.{export_entry_json};

    ghost View = { List ℕ × ExportView };

    ghost view = { export_shown };

    ghost json = { export_entry_json };

    fn write(&self, out: &mut Writer) -> Result<(), AllocError> {
        begin_object(out)?;
        put_member(out, "name", &self.0)?;
        put_member(out, "export", self.1)?;
        end_object(out)
    }
}

impl ToJson for ExportMap {
    ghost use Rattle.std.specs.Prelude.{map};
    ghost use Rattle.wc_validate.specs.Exports.Map.{ExportRecord};
    ghost use Rattle.wc_record.specs.Modules.{export_entry_json};
    ghost use Rattle.wc_texts.specs.Shapes.{array_of};

    ghost View = { ExportRecord };

    ghost view = { λ exports. exports };

    ghost json = { λ exports. array_of (map export_entry_json exports) };

    fn write(&self, out: &mut Writer) -> Result<(), AllocError> {
        begin_array(out)?;
        for entry in self.iter() {
            entry.write(out)?;
        }
        end_array(out)
    }
}

impl ToJson for ValidatedModule {
    ghost use Rattle.wc_validate.specs.Validate.{ModuleRecord, module_record};
    ghost use Rattle.wc_record.specs.Modules.{module_json};

    ghost View = { ModuleRecord };

    ghost view = { module_record };

    ghost json = { module_json };

    fn write(&self, out: &mut Writer) -> Result<(), AllocError> {
        begin_object(out)?;
        put_member(out, "imports", &self.imports)?;
        put_member(out, "exports", &self.exports)?;
        end_object(out)
    }
}

/// Writes the record of a module as JSON: an object with `imports` and `exports`, as a component's world has it of each
/// of its modules (`info` of `world_to_json`).
///
/// # Errors
///
/// `AllocError`: an allocation failed.
pub fn module_to_json(alloc: Global, module: &ValidatedModule) -> Result<Vec<u8>, AllocError>
    ensures text { IfOk result (λ bytes. bytes.items ≡ module_text (module_record module.now)) }
    ensures utf8 { IfOk result (λ bytes. IsUtf8 bytes.items) }
{
    let mut out = Writer::new(Vec::new(alloc));
    module.write(&mut out)?;
    Ok(out.into_inner())
}
