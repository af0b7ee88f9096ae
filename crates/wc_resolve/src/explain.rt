//! The part that a fault of parts is about.

/// A world, an interface, a type or a package of `Parts`, by its index in its list, from 0.
#[derive(Clone, Copy, Debug, PartialEq, Eq)]
pub enum Part {
    World(usize),
    Interface(usize),
    TypeDef(usize),
    Package(usize),
}
