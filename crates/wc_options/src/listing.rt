//! Names as a text.

ghost use Rattle.std.specs.Prelude.{◌≡◌, ◌++◌, IfOk, OnOk, map, string_bytes};
ghost use Rattle.wc_options.specs.Listing.{listed_name, listed_names, listing_text, more_text};
ghost use Rattle.wc_maps.specs.Texts.{text_of};

use std::alloc::{AllocError, Global};

/// How many names a listing has at most.
pub const MOST_LISTED: usize = 8;

/// The first eight names, each in quotes after a blank, and how many there are more; ` none` for none.
///
/// # Errors
///
/// `AllocError`: an allocation failed.
pub fn name_listing(alloc: Global, names: &[&str]) -> Result<String, AllocError>
    ensures { IfOk result (λ text. string_bytes text ≡ listing_text (map text_of names.now)) }
{
    if names.is_empty() {
        return String::from_str(alloc, " none");
    }
    if names.len() <= MOST_LISTED {
        return listed_names(alloc, names);
    }
    let text = listed_names(alloc, &names[..MOST_LISTED])?;
    let more = more_text(alloc, names.len() - MOST_LISTED)?;
    format!(in alloc; "{text}{more}")
}

/// How many names there are more.
///
/// # Errors
///
/// `AllocError`: an allocation failed.
pub fn more_text(alloc: Global, count: usize) -> Result<String, AllocError>
    ensures { IfOk result (λ text. string_bytes text ≡ more_text count) }
{
    format!(in alloc; " and {count} more")
}

/// Names, each in quotes after a blank.
fn listed_names(alloc: Global, names: &[&str]) -> Result<String, AllocError>
    ensures { IfOk result (λ text. string_bytes text ≡ listed_names (map text_of names.now)) }
{
    let mut text = String::new(alloc);
    for name in names {
        push_name(alloc, &mut text, name)?;
    }
    Ok(text)
}

/// Appends a name in quotes, after a blank.
///
/// # Errors
///
/// `AllocError`: an allocation failed.
pub fn push_name(alloc: Global, text: &mut String, name: &str) -> Result<(), AllocError>
    ensures { OnOk result (string_bytes text.new ≡ string_bytes text.old ++ listed_name name.now) }
{
    let listed = format!(in alloc; " `{name}`")?;
    text.push_str(&listed)
}
