//! The call that draws a seed out of given bytes.

use std::alloc::Global;
use std::hash::BuildHasher;
use std::io::{self, ErrorKind};
use std::random::RandomSource;
use wc_lines::input::{Stop, bad_row, bytes_of};
use wc_lines::lines::Lines;
use wc_lines::rows::Row;
use wc_maps::Seed;

/// Fixed bytes instead of random ones.
#[derive(Clone, Copy)]
struct GivenBytes<'a> {
    bytes: &'a [u8],
}

impl RandomSource for GivenBytes<'_> {
    fn fill_bytes(&self, buf: &mut [u8]) -> io::Result<()> {
        if buf.len() != self.bytes.len() {
            return Err(io::Error::from(ErrorKind::UnexpectedEof));
        }
        buf.copy_from_slice(self.bytes);
        Ok(())
    }
}

/// `drawn_seed NUMBER`: the hash of a number of 64 bits under the seed that is drawn from a source with the bytes of
/// the input, or that the source failed.
pub(crate) fn answer_drawn(alloc: Global, row: &Row<'_>, out: &mut Lines) -> Result<(), Stop> {
    let word = row.argument(0);
    let Ok(number) = word.parse::<u64>() else {
        return Err(bad_row(out, "no number", word));
    };
    let bytes = bytes_of(alloc, &row.input, out)?;
    let source = GivenBytes {
        bytes: bytes.as_slice(),
    };
    match Seed::drawn(&source) {
        Ok(seed) => out.number_line("", seed.hash_one(number)),
        Err(_) => out.push_str("the source failed\n"),
    }
    Ok(())
}
