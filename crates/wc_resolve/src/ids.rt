//! Ids: indices, from 0, in the lists of a `Resolve`.

/// The index of a world in `Parts::worlds`.
#[derive(Clone, Copy, Debug, PartialEq, Eq, Hash)]
pub struct WorldId(pub u32);

/// The index of an interface in `Parts::interfaces`.
#[derive(Clone, Copy, Debug, PartialEq, Eq, Hash)]
pub struct InterfaceId(pub u32);

/// The index of a type in `Parts::types`.
#[derive(Clone, Copy, Debug, PartialEq, Eq, Hash)]
pub struct TypeId(pub u32);

/// The index of a package in `Parts::packages`.
#[derive(Clone, Copy, Debug, PartialEq, Eq, Hash)]
pub struct PackageId(pub u32);
