//! Names of imports that a linker repeats, and therefore renames.

ghost use Rattle.std.specs.Prelude.{◌≡◌};
ghost use Rattle.std.specs.Char.{is_ascii_digit};
ghost use Rattle.std.specs.List.{list_all};
ghost use Rattle.std.specs.Option.{option_map};
ghost use Rattle.wc_component_file.specs.Renamed.{is_mark, is_number, is_numbered, mark_start, original_import_name};

/// The name of an import before it was renamed: `a` of `a [v2]`. It is the part before a last ` [vN]`, where N is a
/// decimal number; `None` where a name has no such end.
#[tactic(auto, unfolding(crate::specs::Renamed::original_import_name))]
pub fn original_import_name(name: &str) -> Option<&str>
    ensures { option_map (λ e. e.now) result ≡ original_import_name name.now }
{
    match mark_start(name.as_bytes()) {
        Some(start) => Some(&name[..start]),
        None => None,
    }
}

/// Where the mark begins with which a name ends.
fn mark_start(name: &[u8]) -> Option<usize>
    ensures { result ≡ mark_start name.now }
{
    for start in 0..name.len() {
        if is_mark(&name[start..]) {
            return Some(start);
        }
    }
    None
}

/// Whether a text is ` [vN]`.
#[tactic(auto, unfolding(crate::specs::Renamed::is_mark))]
fn is_mark(text: &[u8]) -> bool
    ensures { result ≡ is_mark text.now }
{
    match text.strip_prefix(b" [v") {
        Some(rest) => is_numbered(rest),
        None => false,
    }
}

/// Whether a text is `N]`.
#[tactic(auto, unfolding(crate::specs::Renamed::is_numbered))]
fn is_numbered(text: &[u8]) -> bool
    ensures { result ≡ is_numbered text.now }
{
    match text.strip_suffix(b"]") {
        Some(digits) => is_number(digits),
        None => false,
    }
}

/// Whether a text is a decimal number.
#[tactic(auto, unfolding(crate::specs::Renamed::is_number))]
pub(crate) fn is_number(text: &[u8]) -> bool
    ensures { result ≡ is_number text.now }
{
    !text.is_empty() && are_digits(text)
}

/// Whether all of these bytes are decimal digits.
fn are_digits(text: &[u8]) -> bool
    ensures { result ≡ list_all is_ascii_digit text.now }
{
    for digit in text {
        if !digit.is_ascii_digit() {
            return false;
        }
    }
    true
}
