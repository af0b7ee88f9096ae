//! Why there are no paths in a module.

ghost use Rattle.std.specs.Prelude.{◌≡◌};

use std::alloc::AllocError;

/// Why there are no paths.
#[derive(Clone, Copy, Debug, PartialEq, Eq)]
pub enum PathFault {
    /// An allocation failed.
    Memory,
    /// A root reaches the function of this index, but its body is no code, or names an item or a segment that is out of
    /// range.
    LiveBody(usize),
}

impl From<AllocError> for PathFault {
    ghost use Rattle.wc_paths.specs.declared.paths.PathFault.TheVariants.{Memory};

    ghost from_gives = { λ _ e. e ≡ Memory };

    fn from(_e: AllocError) -> PathFault {
        PathFault::Memory
    }
}
