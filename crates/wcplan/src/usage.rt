//! The texts that say how the program is called.

ghost use Rattle.std.specs.Prelude.{◌≡◌};
ghost use Rattle.wc_options.specs.Usage.{help_text as page_help, usage_text as page_usage};
ghost use Rattle.wcplan.specs.Usage.{help_text, usage_text};

use wc_options::Page;
use wcplan_inputs::OPTIONS;

/// The usage and help texts of the program.
pub(crate) fn page() -> Page<'static>
    ensures usage { page_usage result ≡ usage_text }
    ensures help { page_help result ≡ help_text }
{
    Page {
        usage: "usage: wcplan WORLDS.json [WORLD] MAIN.wasm",
        end: "\n       wcplan --help | --version\n",
        words: "  WORLDS.json                the worlds, as `wasm-tools component wit --json` prints them
  WORLD                      the component's world (default: the one that includes all others)
  MAIN.wasm                  the main module
",
        last: "  -                          standard input, as WORLDS.json, MAIN.wasm or FILE
  -h, --help                 print this text
  --version                  print the version
",
        options: &OPTIONS,
    }
}

/// The program's name and version, in a line.
pub(crate) const VERSION: &str = "wcplan 0.5.0 (wit-component 0.262.0)\n";

/// The text of an argument that is no text.
pub(crate) const NO_TEXT: &str = "argument that is not UTF-8";
