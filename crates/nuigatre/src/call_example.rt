//! An example of `wc_calls`.

ghost use Rattle.std.specs.Prelude.{◌≡◌, ◌≢◌, [], ◌∷◌, Some, codes};
ghost use Rattle.wc_calls.specs.Answers.{IsPut, done, failed};
ghost use Rattle.wc_calls.specs.Trimming.{with_realloc};
ghost use Rattle.wc_gc.specs.LiveItems.{trim_input_for_names};
ghost use Rattle.wc_gc.specs.TrimmedText.{IsTrimmed};

use std::alloc::Global;
use wc_calls::{Answer, trim};
use wc_maps::Seed;

/// Trims an adapter to what its export `write` reaches, for a main module that exports a realloc as
/// `realloc`. `seed`: the seed of the maps that are made, which a program draws by `Seed::drawn(&rt)`.
pub(crate) fn trim_to_write(alloc: Global, seed: Seed, adapter: &[u8], out: &mut [u8]) -> Answer
    ensures done { result.status ≡ done → IsPut (IsTrimmed (with_realloc (codes "realloc"))
        (trim_input_for_names adapter.now (codes "write" ∷ [])))
        result.length out.old out.new }
    ensures unchanged { result.status ≢ done → result.status ≢ failed → out.new ≡ out.old }
{
    trim(alloc, seed, adapter, &[b"write"], Some(b"realloc"), 16, out)
}
