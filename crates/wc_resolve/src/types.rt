//! The types of interfaces (component model, "Type Definitions").

use crate::{InterfaceId, TypeId, WorldId};

/// A type: a primitive one, or a defined one (`Id`) by its index.
#[derive(Clone, Copy, Debug, PartialEq, Eq)]
pub enum WitType {
    Bool,
    U8,
    U16,
    U32,
    U64,
    S8,
    S16,
    S32,
    S64,
    F32,
    F64,
    Char,
    String,
    ErrorContext,
    Id(TypeId),
}

/// A handle, by the id of its resource. `Resolve::build` doesn't check that the type is a resource.
#[derive(Clone, Copy, Debug, PartialEq, Eq)]
pub enum Handle {
    /// `own<R>`.
    Own(TypeId),
    /// `borrow<R>`.
    Borrow(TypeId),
}

/// The definition of a type. `Resolve::build` refuses flags without labels, and variants and enums without cases.
#[derive(Debug, Drop)]
pub enum TypeDefKind {
    /// Fields in order, each a name and a type.
    Record(Vec<(String, WitType)>),
    /// A resource. Its values are passed by handles only.
    Resource,
    /// A handle of a resource, owned or borrowed.
    Handle(Handle),
    /// The labels in order.
    Flags(Vec<String>),
    /// The types of the items in order.
    Tuple(Vec<WitType>),
    /// Cases in order, each a name and the type of its payload, if it has one.
    Variant(Vec<(String, Option<WitType>)>),
    /// The names of the cases in order.
    Enum(Vec<String>),
    /// The type of the payload.
    Option(WitType),
    /// The types of the two payloads, if they have any.
    Result {
        ok: Option<WitType>,
        err: Option<WitType>,
    },
    /// The type of the elements.
    List(WitType),
    /// The type of the payload, if it has one.
    Future(Option<WitType>),
    /// The type of the elements, if they have one.
    Stream(Option<WitType>),
    /// Another name of this type.
    Alias(WitType),
}

/// Where a type is defined: in a world, in an interface, or in neither.
#[derive(Clone, Copy, Debug, PartialEq, Eq)]
pub enum TypeOwner {
    World(WorldId),
    Interface(InterfaceId),
    None,
}

/// A defined type: its name, if it has one, what it is, and where it is defined. A resource must have a name.
#[derive(Debug, Drop)]
pub struct TypeDef {
    pub name: Option<String>,
    pub kind: TypeDefKind,
    pub owner: TypeOwner,
}
