//! Exports.

ghost use Rattle.std.specs.Prelude.{◌≡◌};
ghost use Rattle.wc_read.specs.Reading.Reader.{GivesWithoutMemory};
ghost use Rattle.wc_read.specs.Exports.{ExportValue, export_kind_name, export_value};
ghost use Rattle.wc_read.specs.Reading.Exports.{export_kind_at, export_at};

use crate::fault::ReadFault;
use crate::reader::{Reader, Spelled};
use std::alloc::Global;

/// The kind of an export (WebAssembly core specification, 2.5.10): the index space that its index is in.
#[derive(Clone, Copy, Debug, PartialEq, Eq)]
pub enum ExportKind {
    Func,
    Table,
    Memory,
    Global,
}

impl ExportKind {
    /// The name of the kind, as the text format has it (6.5.13): `func`, `table`, `memory` or `global`.
    pub fn name(self) -> &'static str
        ensures { result.now ≡ export_kind_name self }
    {
        match self {
            ExportKind::Func => "func",
            ExportKind::Table => "table",
            ExportKind::Memory => "memory",
            ExportKind::Global => "global",
        }
    }
}

/// An export (2.5.10): its name, a slice of the bytes that it was read from, and an index into the space of its kind.
#[derive(Clone, Copy, Debug, PartialEq, Eq)]
pub struct Export<'a> {
    pub name: &'a str,
    pub kind: ExportKind,
    pub index: u32,
}

impl<'a> Reader<'a> {
    #[tactic(auto, unfolding(crate::specs::Reading::Exports::export_kind_at))]
    fn export_kind(&mut self) -> Result<ExportKind, ReadFault>
        ensures { GivesWithoutMemory (λ x. x) result self.new.rest.now
            (export_kind_at self.old.rest.now) }
    {
        match self.byte()? {
            0 => Ok(ExportKind::Func),
            1 => Ok(ExportKind::Table),
            2 => Ok(ExportKind::Memory),
            3 => Ok(ExportKind::Global),
            _ => Err(ReadFault::BadType),
        }
    }

    #[tactic(auto, unfolding(crate::specs::Reading::Exports::export_at))]
    fn export(&mut self) -> Result<Export<'a>, ReadFault>
        ensures { GivesWithoutMemory (λ e. export_value e) result self.new.rest.now
            (export_at self.old.rest.now) }
    {
        let name = self.name()?;
        let kind = self.export_kind()?;
        let index = self.u32()?;
        Ok(Export { name, kind, index })
    }
}

impl<'a> Spelled<'a> for Export<'a> {
    ghost Value = { ExportValue };

    ghost view = { λ e. export_value e };

    ghost read = { export_at };

    fn read_from(_alloc: Global, reader: &mut Reader<'a>) -> Result<Export<'a>, ReadFault> {
        reader.export()
    }
}
