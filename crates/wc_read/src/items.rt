//! Items of a module's index spaces (WebAssembly core specification, 2.5).

use crate::types::{GlobalType, MemoryType, TableType};

/// Where an item comes from (2.5.11): another module, by that module's name and the import's; or this one, with the
/// item's content.
#[derive(Clone, Copy, Debug, PartialEq, Eq)]
pub enum Def<'a, T> {
    Import(&'a str, &'a str),
    Local(T),
}

/// An item of an index space (2.5.1): its type, and where it comes from.
#[derive(Clone, Copy, Debug, PartialEq, Eq)]
pub struct Item<'a, Type, Content> {
    pub ty: Type,
    pub def: Def<'a, Content>,
}

/// A function (2.5.3), by the index of its type; content is the bytes of its body, without its size.
pub type Func<'a> = Item<'a, u32, &'a [u8]>;

/// A table (2.5.4); it has no content.
pub type Table<'a> = Item<'a, TableType, ()>;

/// A memory (2.5.5); it has no content.
pub type Memory<'a> = Item<'a, MemoryType, ()>;

/// A global (2.5.6); content is the bytes of its initialiser, the end of it included.
pub type Global<'a> = Item<'a, GlobalType, &'a [u8]>;
