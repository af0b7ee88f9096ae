//! Imports that are near to one that an option asks for.

ghost use Rattle.std.specs.Prelude.{◌≡◌, map};
ghost use Rattle.std.specs.Option.{option_map};
ghost use Rattle.wc_read.specs.Imports.{import_value};
ghost use Rattle.wc_why.specs.Texts.{text_of};
ghost use Rattle.wc_import_paths.specs.Patterns.{pattern_view};
ghost use Rattle.wcwhy.specs.Patterns.{is_near, is_near_name, is_near_package, is_package_alike, named_under, near_import, near_package, near_pattern};

use crate::texts::is_alike;
use wc_import_paths::ImportPattern;
use wc_read::Import;
use wc_why::package_of;

/// The first of these imports that an option would ask for, if versions and the case of letters did not count.
pub(crate) fn near_import<'i, 'r>(
    pattern: &ImportPattern<'_>,
    imports: &'i [Import<'r>],
) -> Option<&'i Import<'r>>
    ensures { option_map (λ i. import_value i.now) result ≡ near_import
        (map import_value imports.now) (pattern_view pattern.now) }
{
    for import in imports {
        if is_near(pattern, import) {
            return Some(import);
        }
    }
    None
}

/// Whether an option would ask for an import, if versions and the case of letters did not count.
fn is_near(pattern: &ImportPattern<'_>, import: &Import<'_>) -> bool
    ensures { result ≡ is_near (pattern_view pattern.now) (import_value import.now) }
{
    is_alike(pattern.key, import.module) && is_near_name(pattern.name, import.name)
}

/// The first of these imports for whose package an option would ask, if versions and the case of letters did not count.
pub(crate) fn near_package<'i, 'r>(
    pattern: &ImportPattern<'_>,
    imports: &'i [Import<'r>],
) -> Option<&'i Import<'r>>
    ensures { option_map (λ i. import_value i.now) result ≡ near_package
        (map import_value imports.now) (pattern_view pattern.now) }
{
    for one in imports {
        if is_near_package(pattern, one) {
            return Some(one);
        }
    }
    None
}

/// Whether an option would ask for the package of an import, if versions and the case of letters did not count.
fn is_near_package(pattern: &ImportPattern<'_>, import: &Import<'_>) -> bool
    ensures { result ≡ is_near_package (pattern_view pattern.now) (import_value import.now) }
{
    is_package_alike(pattern.key, import.module) && is_near_name(pattern.name, import.name)
}

/// Whether the package of a module is a key but for its version and for the case of letters.
fn is_package_alike(key: &str, module: &str) -> bool
    ensures { result ≡ is_package_alike key.now module.now }
{
    match package_of(module) {
        Some(package) => is_alike(key, package),
        None => false,
    }
}

/// Whether a name that is asked for is this one but for its version and for the case of letters; any, if none is.
fn is_near_name(asked: Option<&str>, name: &str) -> bool
    ensures { result ≡ is_near_name (option_map text_of asked.entry) name.now }
{
    match asked {
        Some(asked) => is_alike(asked, name),
        None => true,
    }
}

/// The pattern that asks for an import as an option does: for its module, and for its name where the option has one.
pub(crate) fn near_pattern<'r>(
    pattern: &ImportPattern<'_>,
    import: &Import<'r>,
) -> ImportPattern<'r>
    ensures { pattern_view result ≡ near_pattern (pattern_view pattern.now)
        (import_value import.now) }
{
    named_under(pattern, import.module, import.name)
}

/// The pattern that asks for what is under a key, and for this name of it where an option has one.
pub(crate) fn named_under<'r>(
    pattern: &ImportPattern<'_>,
    key: &'r str,
    name: &'r str,
) -> ImportPattern<'r>
    ensures { pattern_view result ≡ named_under (pattern_view pattern.now) key.now name.now }
{
    match pattern.name {
        Some(_) => ImportPattern {
            key,
            name: Some(name),
        },
        None => ImportPattern { key, name: None },
    }
}
