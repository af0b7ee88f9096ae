//! Types of parameters and results that need no list.

ghost use Rattle.std.specs.Prelude.{◌≡◌, ◌≤◌, ◌+◌, length, take, drop, min, IfSome};
ghost use Rattle.wc_read.specs.Types.{short_params, short_results};
ghost use Rattle.wc_read.specs.Private.ShortTypes.{IsPut};

use crate::types::ValType;

/// How many parameters and results there are together at most.
pub const SHORT: usize = 4;

/// The types of a few parameters and results (WebAssembly core specification, 2.3.6).
#[derive(Clone, Copy, PartialEq, Eq)]
pub struct ShortTypes {
    /// The types of the parameters, after them those of the results, and I32 in each place that is left.
    pub types: [ValType; SHORT],
    /// How many parameters there are.
    pub params: usize,
    /// How many results there are.
    pub results: usize,
}

impl ShortTypes {
    /// These types, if they are few.
    pub fn of(params: &[ValType], results: &[ValType]) -> Option<ShortTypes>
        ensures params { IfSome result (λ s. short_params s ≡ params.now) }
        ensures results { IfSome result (λ s. short_results s ≡ results.now) }
    {
        if params.len() > SHORT || results.len() > SHORT - params.len() {
            return None;
        }
        let mut types = [ValType::I32; SHORT];
        put_types(&mut types, 0, params);
        put_types(&mut types, params.len(), results);
        Some(ShortTypes {
            types,
            params: params.len(),
            results: results.len(),
        })
    }

    /// The types of the parameters.
    pub fn params(&self) -> &[ValType]
        ensures { result.now ≡ short_params self.now }
    {
        first_types(&self.types, self.params)
    }

    /// The types of the results.
    pub fn results(&self) -> &[ValType]
        ensures { result.now ≡ short_results self.now }
    {
        first_types(types_after(&self.types, self.params), self.results)
    }
}

/// The first types, so many at most.
fn first_types(types: &[ValType], count: usize) -> &[ValType]
    ensures { result.now ≡ take count types.now }
{
    if count >= types.len() {
        return types;
    }
    let (first, _) = types.split_at(count);
    first
}

/// The types after the first ones, of which there are so many at most.
fn types_after(types: &[ValType], count: usize) -> &[ValType]
    ensures { result.now ≡ drop count types.now }
{
    let (_, after) = types.split_at(at_most(count, types.len()));
    after
}

/// A number, or a limit, if that is less.
fn at_most(count: usize, limit: usize) -> usize
    ensures { result ≡ min count limit }
{
    if count < limit { count } else { limit }
}

/// Puts types into places from one on.
fn put_types(types: &mut [ValType; SHORT], from: usize, values: &[ValType])
    requires { from + length values.now ≤ SHORT }
    ensures { IsPut from values.now types.old types.new }
{
    for index in 0..values.len() {
        types[from + index] = values[index];
    }
}
