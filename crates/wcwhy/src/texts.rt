//! Names without their versions.

ghost use Rattle.std.specs.Prelude.{◌≡◌};
ghost use Rattle.std.specs.Str.{str_eq_ignore_ascii_case};
ghost use Rattle.wcwhy.specs.Texts.{is_alike};

use wc_why::unversioned;

/// Whether names are the same but for their versions and for the case of ASCII letters.
pub(crate) fn is_alike(name: &str, other: &str) -> bool
    ensures { result ≡ is_alike name.now other.now }
{
    same_letters(unversioned(name), unversioned(other))
}

/// Whether texts are the same but for the case of ASCII letters.
pub(crate) fn same_letters(left: &str, right: &str) -> bool
    ensures { result ≡ str_eq_ignore_ascii_case left.now right.now }
{
    left.eq_ignore_ascii_case(right)
}
