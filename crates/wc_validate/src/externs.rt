//! The types of what core modules import and export.

use wc_read::{FuncType, GlobalType, MemoryType, TableType};

/// An external type (WebAssembly core specification, 2.3.11).
#[derive(Clone, Copy)]
pub(crate) enum Extern<'a> {
    Func(&'a FuncType),
    Table(TableType),
    Memory(MemoryType),
    Global(GlobalType),
}
