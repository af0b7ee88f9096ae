//! The exports of a core module: what each is, by its name and its type, and all of them recorded.

pub(crate) mod classify;
pub(crate) mod first_exports;
pub(crate) mod first_singles;
pub(crate) mod iter;
pub(crate) mod map;
pub(crate) mod record;
