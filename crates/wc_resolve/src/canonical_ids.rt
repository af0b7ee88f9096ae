//! The test that a text is the id of an interface with the track of its version, compared piece by piece.

ghost use Rattle.std.specs.Prelude.{◌≡◌, ◌↔◌, ◌++◌, ◌∷◌, IsTrue};
ghost use Rattle.std.specs.Fmt.{decimal};
ghost use Rattle.semver.specs.Identifiers.{parts_of, pre_text};
ghost use Rattle.wc_texts.specs.Characters.{full_stop, hyphen};
ghost use Rattle.wc_resolve.specs.Names.{IsLeftAfter, release_track, track};
ghost use Rattle.wc_resolve.specs.Resolve.{joined_id, member_text};
ghost use Rattle.wc_resolve.specs.Views.{package_name_view};

use crate::PackageName;
use itoa::Buffer;
use semver::Version;
use wc_texts::strip_prefix;

/// The rest of a text after two others at its front.
fn after_both<'a>(text: &'a str, first: &str, second: &str) -> Option<&'a str>
    ensures { IsLeftAfter text.now (λ rest. first.now ++ (second.now ++ rest)) result }
{
    match strip_prefix(text, first) {
        Some(rest) => strip_prefix(rest, second),
        None => None,
    }
}

/// The rest of a text after a number in decimal and a separator at its front.
fn after_number<'a>(text: &'a str, number: u64, separator: &str) -> Option<&'a str>
    ensures { IsLeftAfter text.now (λ rest. decimal number ++ (separator.now ++ rest)) result }
{
    let mut digits = Buffer::new();
    after_both(text, digits.format(number), separator)
}

/// Whether a text is a number in decimal.
fn is_number(text: &str, number: u64) -> bool
    ensures { IsTrue result ↔ (text.now ≡ decimal number) }
{
    let mut digits = Buffer::new();
    text == digits.format(number)
}

/// The rest of a text after two numbers in decimal, each with a full stop after it, at its front.
fn after_two_numbers(text: &str, major: u64, minor: u64) -> Option<&str>
    ensures { IsLeftAfter text.now
        (λ rest. decimal major ++ (full_stop ∷ (decimal minor ++ (full_stop ∷ rest)))) result }
{
    match after_number(text, major, ".") {
        Some(rest) => after_number(rest, minor, "."),
        None => None,
    }
}

/// Whether a text is the track of a release with these numbers.
fn is_release_track(text: &str, major: u64, minor: u64, patch: u64) -> bool
    ensures { IsTrue result ↔ (text.now ≡ release_track major minor patch) }
{
    if major != 0 {
        return is_number(text, major);
    }
    if minor != 0 {
        return match strip_prefix(text, "0.") {
            Some(rest) => is_number(rest, minor),
            None => false,
        };
    }
    match after_two_numbers(text, 0, 0) {
        Some(rest) => is_number(rest, patch),
        None => false,
    }
}

/// Whether a text is a version of these numbers with a prerelease.
fn is_prerelease(text: &str, version: &Version) -> bool
    ensures { IsTrue result ↔ (text.now ≡ decimal version.now.major ++ (full_stop
        ∷ (decimal version.now.minor ++ (full_stop
        ∷ (decimal version.now.patch ++ (hyphen ∷ pre_text version.now.pre)))))) }
{
    match after_two_numbers(text, version.major, version.minor) {
        Some(rest) => match after_number(rest, version.patch, "-") {
            Some(pre) => pre == version.pre.as_str(),
            None => false,
        },
        None => false,
    }
}

/// Whether a text is the track of a version.
pub(crate) fn is_track(text: &str, version: &Version) -> bool
    ensures { IsTrue result ↔ (text.now ≡ track (parts_of version.now)) }
{
    if version.pre.is_empty() {
        is_release_track(text, version.major, version.minor, version.patch)
    } else {
        is_prerelease(text, version)
    }
}

/// The rest of a text after `namespace:package/name` at its front.
fn after_member<'a>(text: &'a str, package: &PackageName, name: &str) -> Option<&'a str>
    ensures { let view = package_name_view «package».now in IsLeftAfter text.now
        (λ rest. joined_id view.namespace view.name (name.now ++ rest)) result }
{
    match after_both(text, package.namespace.as_str(), ":") {
        Some(member) => match after_both(member, package.name.as_str(), "/") {
            Some(rest) => strip_prefix(rest, name),
            None => None,
        },
        None => None,
    }
}

/// Whether a text is `namespace:package/name`, with `@` and the version's track where the package has a version.
pub(crate) fn is_canonical_member_id(text: &str, package: &PackageName, name: &str) -> bool
    ensures { IsTrue result ↔
        (text.now ≡ member_text track (package_name_view «package».now) name.now) }
{
    match after_member(text, package, name) {
        Some(rest) => match &package.version {
            Some(version) => match strip_prefix(rest, "@") {
                Some(shown) => is_track(shown, version),
                None => false,
            },
            None => rest.is_empty(),
        },
        None => false,
    }
}
