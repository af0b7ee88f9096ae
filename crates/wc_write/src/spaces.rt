//! Index spaces: imported items, and defined ones (WebAssembly core specification, 2.5).

ghost use Rattle.std.specs.Prelude.{◌≡◌, ◌++◌, IfOk, OnOk};
ghost use Rattle.wc_read.specs.declared.types.ImportType.{ImportType as import_type};
ghost use Rattle.wc_read.specs.declared.types.ImportType.TheVariants.{Func as func_import, Table as table_import, Memory as memory_import, Global as global_import};
ghost use Rattle.wc_read.specs.Imports.{import_values};
ghost use Rattle.wc_write.specs.Spaces.{imports_of, defined, item_values, defined_values};

use std::alloc::{AllocError, Global};
use wc_read::{Def, GlobalType, Import, ImportType, Item, MemoryType, TableType};

/// A defined item: its type and its content.
#[derive(Drop)]
pub(crate) struct Defined<'b, T, C> {
    pub ty: T,
    pub content: &'b C,
}

/// The defined items, in order.
pub(crate) fn defined_items<'b, T: Copy + Drop, C: Drop>(
    alloc: Global,
    items: &'b [Item<'_, T, C>],
) -> Result<Vec<Defined<'b, T, C>>, AllocError>
    ensures { IfOk result (λ v. defined_values v.items ≡ defined (item_values items.now)) }
{
    let mut defined_items = Vec::new(alloc);
    for item in items {
        if let Def::Local(content) = &item.def {
            defined_items.push(Defined {
                ty: item.ty,
                content,
            })?;
        }
    }
    Ok(defined_items)
}

/// The type of one kind of items, which an import of that kind has too.
pub(crate) trait Importable: Copy {
    ghost kind: { Self → import_type };

    /// The type of the import.
    fn import_type(self) -> ImportType
        ensures { result ≡ kind self };
}

impl Importable for u32 {
    ghost kind = { func_import };

    fn import_type(self) -> ImportType {
        ImportType::Func(self)
    }
}

impl Importable for TableType {
    ghost kind = { table_import };

    fn import_type(self) -> ImportType {
        ImportType::Table(self)
    }
}

impl Importable for MemoryType {
    ghost kind = { memory_import };

    fn import_type(self) -> ImportType {
        ImportType::Memory(self)
    }
}

impl Importable for GlobalType {
    ghost kind = { global_import };

    fn import_type(self) -> ImportType {
        ImportType::Global(self)
    }
}

/// Appends the imports of the imported items, in order.
pub(crate) fn push_imports<'a, T: Importable, C>(
    imports: &mut Vec<Import<'a>>,
    items: &[Item<'a, T, C>],
) -> Result<(), AllocError>
    ensures { OnOk result (import_values imports.new.items ≡
        import_values imports.old.items ++ imports_of T.kind (item_values items.now)) }
{
    for item in items {
        if let Def::Import(module, name) = item.def {
            imports.push(Import {
                module,
                name,
                ty: item.ty.import_type(),
            })?;
        }
    }
    Ok(())
}
