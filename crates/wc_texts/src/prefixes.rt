//! The prefixes of texts.

ghost use Rattle.std.specs.Option.{option_map};
ghost use Rattle.std.specs.Prelude.{◌≡◌, ◌++◌, ℕ, List, option_copied};
ghost use Rattle.wc_texts.specs.Finds.{Finds};
ghost use Rattle.wc_texts.specs.Prefixes.{rest_after};

/// The rest of a text after a prefix; `None` where the text does not begin with it.
pub fn strip_prefix<'a>(text: &'a str, prefix: &str) -> Option<&'a str>
    ensures found { Finds (option_copied result)
        (λ (rest : List ℕ). text.now ≡ prefix.now ++ rest) }
    ensures rest { option_map (λ rest. rest.now) result ≡ rest_after prefix.now text.now }
{
    text.strip_prefix(prefix)
}
