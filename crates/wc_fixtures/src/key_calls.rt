//! The calls that need no `Resolve`: on keys, versions, handles and functions.

use crate::read::{asked_of, made};
use crate::resolve_calls::put_answer;
use crate::shown_names::{put_key, put_name};
use semver::Version;
use std::alloc::Global;
use std::hash::{DefaultHasher, Hash, Hasher};
use wc_lines::input::Stop;
use wc_lines::lines::Lines;
use wc_lines::rows::Row;
use wc_resolve::laws::keys_hash_alike;
use wc_resolve::{Function, PackageName, WorldKey};

fn hash_of(key: &WorldKey) -> u64 {
    let mut state = DefaultHasher::new();
    key.hash(&mut state);
    state.finish()
}

/// The copy of a key, whether it is equal to the key, and whether both are hashed alike.
pub(crate) fn put_key_copy(alloc: Global, key: &WorldKey, out: &mut Lines) -> Result<(), Stop> {
    let copy = key.clone(alloc)?;
    put_key(out, &copy);
    out.end();
    keys_hash_alike(&copy, key);
    put_answer(out, copy == *key);
    put_answer(out, hash_of(&copy) == hash_of(key));
    Ok(())
}

/// Appends a name, in quotes unless it is plain, and a line feed.
fn put_line(out: &mut Lines, name: &str) {
    put_name(out, name);
    out.end();
}

/// `version_compat_track VERSION`: its track; `is_version_compat_track VERSION TEXT`: whether the text is its track.
pub(crate) fn answer_track(alloc: Global, row: &Row<'_>, out: &mut Lines) -> Result<(), Stop> {
    let version = made(Version::parse(alloc, row.argument(0)), out)?;
    if row.call == "version_compat_track" {
        put_line(out, &PackageName::version_compat_track(alloc, &version)?);
    } else {
        let is_track = PackageName::is_version_compat_track(&version, row.argument(1));
        put_answer(out, is_track);
    }
    Ok(())
}

/// `function_clone`: a question about the copy of a function; `legacy_core_export_name [INTERFACE]`: the name of its
/// export.
pub(crate) fn answer_function(alloc: Global, row: &Row<'_>, out: &mut Lines) -> Result<(), Stop> {
    let function: Function = asked_of(alloc, row, out)?;
    if row.call == "function_clone" {
        let copy = function.clone(alloc)?;
        writeln!(out, "{copy:?}");
    } else {
        let interface = row.arguments.first().copied();
        put_line(out, &function.legacy_core_export_name(alloc, interface)?);
    }
    Ok(())
}
