//! The texts that say how the program is called.

ghost use Rattle.std.specs.Prelude.{◌≡◌};
ghost use Rattle.wc_options.specs.Usage.{help_text as page_help, usage_text as page_usage};
ghost use Rattle.wcwhy.specs.Usage.{help_text, usage_text};

use crate::arguments::OPTIONS;
use wc_options::Page;

/// The usage and help texts of the program.
pub(crate) fn page() -> Page<'static>
    ensures usage { page_usage result ≡ usage_text }
    ensures help { page_help result ≡ help_text }
{
    Page {
        usage: "usage: wcwhy IN",
        end: " [EXPORT]...\n       wcwhy --help | --version\n",
        words: "  IN                      a component, or a core module; with --adapt a component's main module
  EXPORT                  export to start from (default: all)
",
        last: "  -h, --help              print this text
  --version               print the version
",
        options: &OPTIONS,
    }
}

/// The program's name and version, in a line.
pub(crate) const VERSION: &str = "wcwhy 0.5.0 (wit-component 0.262.0)\n";

/// The mistake in an argument that is no text.
pub(crate) const NO_TEXT: &str = "argument that is not UTF-8";
