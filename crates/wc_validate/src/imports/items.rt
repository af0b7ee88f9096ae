//! Imported items of core modules.

use crate::externs::Extern;
use wc_read::FuncType;

/// An item that a core module imports: from a module, by a name, with a type.
#[derive(Clone, Copy)]
pub(crate) struct ImportedItem<'a> {
    pub(crate) module_name: &'a str,
    pub(crate) name: &'a str,
    pub(crate) ty: Extern<'a>,
}

/// A function that a core module imports: from a module, by a name, with a type.
#[derive(Clone, Copy)]
pub(crate) struct ImportedFunction<'a> {
    pub(crate) module_name: &'a str,
    pub(crate) name: &'a str,
    pub(crate) ty: &'a FuncType,
}
