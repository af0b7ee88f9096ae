//! Why a module imports something: modules as parts of a component, from their bytes to the tree of paths.
//!
//! `follow` reads a module with its segments, and follows what it names (`wc_paths`). `MainModule` is the main module
//! of a component, also where it can't be followed, and makes its part of the component (`wc_why`). `adapter_part`,
//! `core_part` and `library_part` make the other parts. `tree_to_ends` is the tree of the paths to imports and
//! functions through parts, and `tree_of_followed` that of a module that stands alone. `ImportPattern` says which
//! imports are asked for; `patterns_of` makes patterns of texts, and `Asked` makes them ready to be looked up.
//! `OfferedImports` looks up whether a pattern asks for any of some imports. `paths_to_json` does all of it for a
//! module alone.
#![tactic(auto)]

mod asked;
mod followed;
mod functions;
mod json_paths;
mod main_module;
mod part;
mod patterns;
mod reached;
mod roots;
mod rows;
mod shown;

pub use asked::{Asked, OfferedImports};
pub use followed::{Followed, Refusal, follow, read_code};
pub use functions::{
    are_named, first_unknown_function, functions_asked, functions_of, index_of, is_number,
    near_function,
};
pub use json_paths::paths_to_json;
pub use main_module::MainModule;
pub use part::{adapter_part, core_part, library_part};
pub use patterns::{ImportPattern, patterns_of};
pub use roots::exports_of_names;
pub use rows::ModuleRows;
pub use shown::{
    ShownEnd, is_any_asked, push_functions, push_shown, shows_imports, tree_of_followed,
    tree_to_ends,
};
