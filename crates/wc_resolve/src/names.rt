//! The characters of names, and the track of a version (component model, "Import and Export Definitions").

ghost use Rattle.std.specs.Prelude.{◌≡◌, ◌↔◌, IfOk, IsTrue, string_bytes};
ghost use Rattle.semver.specs.Identifiers.{parts_of};
ghost use Rattle.wc_resolve.specs.Names.{IsFunctionCharacter, IsFunctionName, IsName, IsNameCharacter, track};

use crate::PackageName;
use crate::canonical_ids::is_track;
use semver::Version;
use std::alloc::{AllocError, Global};

/// Whether a byte can occur in a name.
fn is_name_character(byte: u8) -> bool
    ensures { IsTrue result ↔ IsNameCharacter byte }
{
    byte.is_ascii_alphanumeric() || byte == b'-'
}

/// Whether a byte can occur in the name of a function.
fn is_function_character(byte: u8) -> bool
    ensures { IsTrue result ↔ IsFunctionCharacter byte }
{
    is_name_character(byte) || byte == b'[' || byte == b']' || byte == b'.'
}

/// Whether a text can be the name of a namespace, a package, an interface or a type, or the plain key of an item that
/// is no function.
#[tactic(auto, unfolding(crate::specs::Names::IsName))]
pub(crate) fn is_name(text: &str) -> bool
    ensures { IsTrue result ↔ IsName text.now }
{
    !text.is_empty() && text.as_bytes().iter().all(|byte| is_name_character(*byte))
}

/// Whether a text can be the name of a function.
#[tactic(auto, unfolding(crate::specs::Names::IsFunctionName))]
pub(crate) fn is_function_name(text: &str) -> bool
    ensures { IsTrue result ↔ IsFunctionName text.now }
{
    !text.is_empty()
        && text
            .as_bytes()
            .iter()
            .all(|byte| is_function_character(*byte))
}

impl PackageName {
    /// The track of a version: the part that compatible versions share. With a prerelease it is the version without
    /// its build; else the major number, if that isn't 0; else `0.` and the minor number, if that isn't 0; else the
    /// version without its build. Of 1.2.3 it is `1`, of 0.2.3 `0.2`, of 0.0.4 `0.0.4`, and of 1.0.0-rc.1+x
    /// `1.0.0-rc.1`.
    ///
    /// # Errors
    ///
    /// `AllocError`: an allocation failed.
    pub fn version_compat_track(alloc: Global, version: &Version) -> Result<String, AllocError>
        ensures { IfOk result (λ text. string_bytes text ≡ track (parts_of version.now)) }
    {
        let (major, minor, patch) = (version.major, version.minor, version.patch);
        if !version.pre.is_empty() {
            let pre = version.pre.as_str();
            return format!(in alloc; "{major}.{minor}.{patch}-{pre}");
        }
        if major != 0 {
            return format!(in alloc; "{major}");
        }
        if minor != 0 {
            return format!(in alloc; "0.{minor}");
        }
        format!(in alloc; "{major}.{minor}.{patch}")
    }

    /// Whether a text is the track of a version, as `version_compat_track` has it. Nothing is allocated.
    pub fn is_version_compat_track(version: &Version, text: &str) -> bool
        ensures { IsTrue result ↔ (text.now ≡ track (parts_of version.now)) }
    {
        is_track(text, version)
    }
}
