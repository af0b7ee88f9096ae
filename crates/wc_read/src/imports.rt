//! Import sections.

ghost use Rattle.std.specs.Prelude.{◌≢◌, IfOk, IfErr};
ghost use Rattle.wc_read.specs.Reading.Reader.{GivesWithoutMemory};
ghost use Rattle.wc_read.specs.Reading.Imports.{import_type_at, import_at};
ghost use Rattle.wc_read.specs.Fault.{IfRefused, SpellsNothing};
ghost use Rattle.wc_read.specs.Imports.{ImportValue, import_value, import_values, SpellsImports};

use crate::contents::items;
use crate::fault::ReadFault;
use crate::reader::{Reader, Spelled};
use crate::types::{Import, ImportType};
use std::alloc::Global;

impl<'a> Reader<'a> {
    #[tactic(auto, unfolding(crate::specs::Reading::Imports::import_type_at))]
    fn import_type(&mut self) -> Result<ImportType, ReadFault>
        ensures { GivesWithoutMemory (λ x. x) result self.new.rest.now
            (import_type_at self.old.rest.now) }
    {
        match self.byte()? {
            0 => Ok(ImportType::Func(self.u32()?)),
            1 => Ok(ImportType::Table(self.table()?)),
            2 => Ok(ImportType::Memory(self.memory()?)),
            3 => Ok(ImportType::Global(self.global()?)),
            _ => Err(ReadFault::BadType),
        }
    }

    #[tactic(auto, unfolding(crate::specs::Reading::Imports::import_at))]
    fn import(&mut self) -> Result<Import<'a>, ReadFault>
        ensures { GivesWithoutMemory (λ i. import_value i) result self.new.rest.now
            (import_at self.old.rest.now) }
    {
        let module = self.name()?;
        let name = self.name()?;
        let ty = self.import_type()?;
        Ok(Import { module, name, ty })
    }
}

impl<'a> Spelled<'a> for Import<'a> {
    ghost Value = { ImportValue };

    ghost view = { λ i. import_value i };

    ghost read = { import_at };

    fn read_from(_alloc: Global, reader: &mut Reader<'a>) -> Result<Import<'a>, ReadFault> {
        reader.import()
    }
}

/// Reads the content of an import section (WebAssembly core specification, 5.5.5).
///
/// Everything of an import is checked, except the index of a function's type. Names are slices of the content.
///
/// # Errors
///
/// - `Truncated`: the bytes end inside an import, or before the last one that is counted.
/// - `BadNumber`: a count, a length, an index, a bound or an exponent does not fit its bits in LEB128.
/// - `BadName`: a name is not UTF-8.
/// - `BadType`: a byte is no kind of import, no value type, no mutability, or no reference type in a table; or the
///   index of a type in a reference is negative.
/// - `BadLimits`: flags that no table or memory has, a maximum below the minimum, a shared memory without a maximum,
///   an exponent of a page size other than 0 and 16, or pages past 2^32 bytes of a 32-bit memory.
/// - `SectionSize`: bytes follow the last import.
/// - `Memory`: an allocation failed.
pub fn read_imports(alloc: Global, content: &[u8]) -> Result<Vec<Import<'_>>, ReadFault>
    // What is read is spelled so, by all of the bytes.
    ensures found { IfOk result (λ v. SpellsImports content.now (import_values v.items)) }
    // Unless memory runs out, what is spelled is read.
    ensures refused { IfRefused result (SpellsNothing SpellsImports content.now) }
    ensures no_component { IfErr result (λ f. f ≢ ReadFault.Component) }
{
    items::<Import>(alloc, content)
}
