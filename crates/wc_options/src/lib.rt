//! Options of programs, by a table: it reads the arguments, and makes the usage text and the help.
#![tactic(auto)]

mod adapters;
mod given;
mod listing;
mod reading;
mod table;
mod usage;
mod wrong;

pub use adapters::{adapters_of, count_standard, first_parts, is_standard, pairs_of};
pub use given::{is_given, text_count, texts, value, values};
pub use listing::{MOST_LISTED, more_text, name_listing, push_name};
pub use reading::{check, pair};
pub use table::{ProgramOption, Value};
pub use usage::{Help, Page, Usage, WrongCall};
pub use wrong::{NoCommand, WrongArgument};
