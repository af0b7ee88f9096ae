//! The names of packages, if no two packages have the same name and version.

ghost use Rattle.std.specs.Prelude.{IfErr, IfOk, map};
ghost use Rattle.wc_resolve.specs.Views.{package_view};
ghost use Rattle.wc_resolve.specs.WellFormed.{HaveDistinctNames};
ghost use Rattle.wc_resolve.specs.Refusals.{IsRepeatRefused};
ghost use Rattle.wc_resolve.specs.ResolveParts.{parts_view};
ghost use Rattle.wc_resolve.specs.Validate.{AreNamesOf};

use crate::{Package, PackageName, Part, Parts, ResolveFault};
use std::alloc::Global;
use wc_maps::{Seed, Set};
use wc_texts::Refused;

/// The seed for the names of the packages: the seed of the first package's interfaces, which the maker of the
/// packages chose. Without packages it is a known seed: no name is inserted then.
fn seed_of(packages: &[Package]) -> Seed {
    match packages.first() {
        Some(package) => *package.interfaces.hasher(),
        None => Seed::new(0, 0),
    }
}

/// Copies of the names of packages, in order.
///
/// # Errors
///
/// `NameClash`: a package has the name and version of an earlier one; the fault is about the first such package.
fn distinct_names(
    alloc: Global,
    packages: &[Package],
) -> Result<Set<PackageName>, Refused<ResolveFault, Part>>
    ensures names { let views = map package_view packages.now in IfOk result
        (λ names. HaveDistinctNames views × AreNamesOf views names.keys) }
    ensures refusal { IfErr result (IsRepeatRefused (map package_view packages.now)) }
{
    let mut names = Set::with_hasher(alloc, seed_of(packages));
    for index in 0..packages.len() {
        let name = packages[index].name.clone(alloc)?;
        let (_index, is_new) = names.insert_full(name)?;
        if !is_new {
            return Err(Refused {
                fault: ResolveFault::NameClash,
                place: Some(Part::Package(index)),
            });
        }
    }
    Ok(names)
}

/// Copies of the names of the parts' packages, in order; or the first package that has the name and version of an
/// earlier one.
pub(crate) fn distinct_package_names(
    alloc: Global,
    parts: &Parts,
) -> Result<Set<PackageName>, Refused<ResolveFault, Part>>
    ensures names { let view = parts_view parts.now in IfOk result
        (λ names. HaveDistinctNames view.packages × AreNamesOf view.packages names.keys) }
    ensures refusal { IfErr result (IsRepeatRefused (parts_view parts.now).packages) }
{
    distinct_names(alloc, &parts.packages)
}
