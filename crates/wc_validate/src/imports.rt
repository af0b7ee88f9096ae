//! The imports of a core module: what each is, by its name and its type, and all of them recorded.

pub(crate) mod adapter_types;
pub(crate) mod arguments;
pub(crate) mod builtins;
pub(crate) mod classify;
pub(crate) mod environment;
pub(crate) mod first_functions;
pub(crate) mod instances;
pub(crate) mod interface;
pub(crate) mod intrinsics;
pub(crate) mod items;
pub(crate) mod iter;
pub(crate) mod lookups;
pub(crate) mod map;
pub(crate) mod record;
pub(crate) mod recorder;
pub(crate) mod root;
pub(crate) mod scheme;
