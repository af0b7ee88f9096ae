//! Types of core modules.

ghost use Rattle.std.specs.Prelude.{OnOk};
ghost use Rattle.wc_read.specs.declared.types.ValType.TheVariants.{TypeRef};
ghost use Rattle.wc_record.specs.CoreTypes.{val_type_json};
ghost use Rattle.wc_record.specs.Objects.{PutsJson};

use crate::objects::{begin_object, end_object, put_list_member, put_member};
use crate::to_json::ToJson;
use json::Writer;
use std::alloc::AllocError;
use wc_read::{ExportKind, FuncType, GlobalType, MemoryType, TableType, ValType};

/// Writes the type of references to functions of a type.
fn put_type_ref(out: &mut Writer, nullable: bool, index: u32) -> Result<(), AllocError>
    ensures { OnOk result (PutsJson out.old out.new (val_type_json (TypeRef nullable index))) }
{
    begin_object(out)?;
    put_member(out, "nullable", &nullable)?;
    put_member(out, "index", &index)?;
    end_object(out)
}

impl ToJson for ValType {
    ghost use Rattle.wc_read.specs.declared.types.ValType.{ValType as val_type};
    ghost use Rattle.wc_record.specs.CoreTypes.{val_type_json};

    ghost View = { val_type };

    ghost view = { λ t. t };

    ghost json = { val_type_json };

    fn write(&self, out: &mut Writer) -> Result<(), AllocError> {
        match self {
            ValType::I32 => out.string("i32"),
            ValType::I64 => out.string("i64"),
            ValType::F32 => out.string("f32"),
            ValType::F64 => out.string("f64"),
            ValType::V128 => out.string("v128"),
            ValType::FuncRef => out.string("funcref"),
            ValType::ExternRef => out.string("externref"),
            ValType::FuncRefNonNull => out.string("non-null-funcref"),
            ValType::ExternRefNonNull => out.string("non-null-externref"),
            ValType::TypeRef { nullable, index } => put_type_ref(out, *nullable, *index),
        }
    }
}

impl ToJson for FuncType {
    ghost use Rattle.wc_read.specs.Types.{FuncTypeValue, func_type_value};
    ghost use Rattle.wc_record.specs.CoreTypes.{func_type_json};

    ghost View = { FuncTypeValue };

    ghost view = { func_type_value };

    ghost json = { func_type_json };

    fn write(&self, out: &mut Writer) -> Result<(), AllocError> {
        begin_object(out)?;
        put_list_member(out, "params", self.params())?;
        put_list_member(out, "results", self.results())?;
        end_object(out)
    }
}

impl ToJson for MemoryType {
    ghost use Rattle.wc_read.specs.declared.types.MemoryType.{MemoryType as memory_type};
    ghost use Rattle.wc_record.specs.CoreTypes.{memory_type_json};

    ghost View = { memory_type };

    ghost view = { λ t. t };

    ghost json = { memory_type_json };

    fn write(&self, out: &mut Writer) -> Result<(), AllocError> {
        begin_object(out)?;
        put_member(out, "memory64", &self.memory64)?;
        put_member(out, "shared", &self.shared)?;
        put_member(out, "initial", &self.initial)?;
        put_member(out, "maximum", &self.maximum)?;
        put_member(out, "page_size_log2", &self.page_size_log2)?;
        end_object(out)
    }
}

impl ToJson for TableType {
    ghost use Rattle.wc_read.specs.declared.types.TableType.{TableType as table_type};
    ghost use Rattle.wc_record.specs.CoreTypes.{table_type_json};

    ghost View = { table_type };

    ghost view = { λ t. t };

    ghost json = { table_type_json };

    fn write(&self, out: &mut Writer) -> Result<(), AllocError> {
        begin_object(out)?;
        put_member(out, "element_type", &self.element_type)?;
        put_member(out, "table64", &self.table64)?;
        put_member(out, "initial", &self.initial)?;
        put_member(out, "maximum", &self.maximum)?;
        end_object(out)
    }
}

impl ToJson for GlobalType {
    ghost use Rattle.wc_read.specs.declared.types.GlobalType.{GlobalType as global_type};
    ghost use Rattle.wc_record.specs.CoreTypes.{global_type_json};

    ghost View = { global_type };

    ghost view = { λ g. g };

    ghost json = { global_type_json };

    fn write(&self, out: &mut Writer) -> Result<(), AllocError> {
        begin_object(out)?;
        put_member(out, "content_type", &self.content_type)?;
        put_member(out, "mutable", &self.mutable)?;
        end_object(out)
    }
}

impl ToJson for ExportKind {
    ghost use Rattle.wc_read.specs.declared.exports.ExportKind.{ExportKind as export_kind};
    ghost use Rattle.wc_record.specs.CoreTypes.{export_kind_json};

    ghost View = { export_kind };

    ghost view = { λ k. k };

    ghost json = { export_kind_json };

    fn write(&self, out: &mut Writer) -> Result<(), AllocError> {
        out.string(self.name())
    }
}
