//! The seed of a hash.

ghost use Rattle.std.specs.Prelude.{◌≡◌};
ghost use Rattle.wc_maps.specs.Seed.{seeded};

use std::fmt::{self, Debug, Formatter};
use std::hash::{BuildHasher, DefaultHasher, Hasher};
use std::io;
use std::random::RandomSource;

/// The seed of a map's hash, which is SipHash-1-3 of the seed and the key. Who chooses keys and doesn't know the seed
/// can't choose keys that collide.
#[derive(Clone, Copy)]
pub struct Seed {
    start: DefaultHasher,
}

impl Seed {
    /// The seed of two numbers. Equal numbers give equal seeds.
    pub fn new(first: u64, second: u64) -> Seed
        // Hashes begin with both numbers.
        ensures { result.start ≡ seeded first second }
    {
        let mut start = DefaultHasher::new();
        start.write_u64(first);
        start.write_u64(second);
        Seed { start }
    }

    /// A seed out of random bytes: the system's, where `source` is a runtime.
    ///
    /// # Errors
    ///
    /// The seed of two numbers that the source draws. The fault is the source's.
    pub fn drawn(source: &impl RandomSource) -> io::Result<Seed> {
        let mut bytes = [0; 16];
        source.fill_bytes(&mut bytes)?;
        let drawn = u128::from_le_bytes(bytes);
        let first = (drawn & 0xffff_ffff_ffff_ffff) as u64;
        Ok(Seed::new(first, (drawn >> 64) as u64))
    }
}

impl BuildHasher for Seed {
    type Hasher = DefaultHasher;

    ghost build_hasher = { λ s. s.start };

    fn build_hasher(&self) -> DefaultHasher {
        self.start
    }
}

impl Debug for Seed {
    fn fmt<W: fmt::Write>(&self, f: &mut Formatter<W>) -> fmt::Result {
        f.debug_struct("Seed").finish_non_exhaustive()
    }
}
