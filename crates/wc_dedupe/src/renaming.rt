//! The renaming of a list of imports, so that no two share a module and a name.

ghost use Rattle.std.specs.Prelude.{◌≡◌, false, IfOk, length, string_bytes};
ghost use Rattle.std.specs.Option.{option_map};
ghost use Rattle.wc_read.specs.Imports.{import_value, import_values};
ghost use Rattle.wc_dedupe.specs.Laws.{AreDistinct};
ghost use Rattle.wc_dedupe.specs.Private.Numbers.{LacksNumbered, PushesRename};
ghost use Rattle.wc_dedupe.specs.Private.RenameOrder.{LeadBack};
ghost use Rattle.wc_dedupe.specs.Private.NamePositions.{named, names_of, Ascend, HavePositions};
ghost use Rattle.wc_dedupe.specs.Renaming.{original_in, renamed_import, renamed_imports, IsRenaming};

use crate::name_keys::{are_different, known_names, sorted_keys};
use crate::name_positions::name_in;
use crate::numbers::{Known, give};
use crate::rename_list::RenameList;
use crate::rename_order::{find, rename_order};
use std::alloc::{AllocError, Global};
use std::marker::Model;
use wc_read::Import;

/// The original names of renamed imports.
#[derive(Drop)]
pub struct ModuleImportMap {
    renames: RenameList,
    order: Vec<(u64, usize)>,
}

impl Model for ModuleImportMap {
    ghost use Rattle.std.specs.Prelude.{List};
    ghost use Rattle.wc_dedupe.specs.Renaming.{RenameView};

    ghost Value = { List RenameView };

    ghost use Rattle.wc_dedupe.specs.Private.RenameOrder.{IsNameOrder, LeadBack};

    ghost view = { λ a. a.renames };

    ghost invariant = { λ a. IsNameOrder a.renames a.order.items × LeadBack a.renames };
}

impl ModuleImportMap {
    /// The original name of an import of the renamed module, by its module and its name; its type is ignored. `None`
    /// if no import was renamed to that name. It does not allocate.
    pub fn original_name(&self, import: &Import<'_>) -> Option<&str>
        ensures { option_map (λ s. s.now) result
            ≡ original_in self.now import.now.module.now import.now.name.now }
    {
        match find(&self.renames, &self.order, import.module, import.name) {
            Some(index) => match self.renames.get(index) {
                Some(rename) => Some(rename.original),
                None => None,
            },
            None => None,
        }
    }

    /// The renamed imports, in the order of the module's imports.
    pub fn renames(&self) -> &RenameList
        ensures { result.now ≡ self.now }
    {
        &self.renames
    }
}

/// The renaming of a list of imports: the renames, and for each import the index of its rename, or `None` if it keeps
/// its name.
#[derive(Drop)]
pub(crate) struct Renaming {
    pub(crate) map: ModuleImportMap,
    pub(crate) indices: Vec<Option<usize>>,
}

/// Renames imports of these names, so that no two share a module and a name.
pub(crate) fn rename_all(alloc: Global, names: &[(&str, &str)]) -> Result<Renaming, AllocError>
    ensures { IfOk result (λ r. IsRenaming (names_of names.now) r.indices.items r.map) }
{
    let keys = sorted_keys(alloc, names)?;
    if are_different(&keys) {
        return unrenamed(alloc, names);
    }
    let known = known_names(alloc, names, &keys)?;
    let all = Known::new(&known.names);
    let (renames, indices) = rename_each(alloc, names, all, &known.positions)?;
    let order = rename_order(alloc, &renames)?;
    Ok(Renaming {
        map: ModuleImportMap { renames, order },
        indices,
    })
}

/// The renaming of imports whose names are different: each keeps its name.
fn unrenamed(alloc: Global, names: &[(&str, &str)]) -> Result<Renaming, AllocError>
    requires { AreDistinct (names_of names.now) }
    ensures { IfOk result (λ r. IsRenaming (names_of names.now) r.indices.items r.map) }
{
    let indices = vec![in alloc; None; names.len()]?;
    Ok(Renaming {
        map: ModuleImportMap {
            renames: RenameList::new(alloc),
            order: Vec::new(alloc),
        },
        indices,
    })
}

/// The renames of imports with these names, which have these positions among the known names, and for each import the
/// index of its rename.
fn rename_each(
    alloc: Global,
    names: &[(&str, &str)],
    known: Known<'_, '_>,
    positions: &[usize],
) -> Result<(RenameList, Vec<Option<usize>>), AllocError>
    requires ascend { Ascend known.names.now }
    requires lacks { known.some_numbered ≡ false → LacksNumbered (names_of known.names.now) }
    requires positions { HavePositions (names_of names.now) (names_of known.names.now)
        positions.now }
    ensures { IfOk result (λ r. IsRenaming (names_of names.now) r.1.items r.0
        × LeadBack r.0) }
{
    let mut numbers = vec![in alloc; 0; known.names.len()]?;
    let mut renames = RenameList::new(alloc);
    let mut indices = Vec::with_capacity(alloc, names.len())?;
    for (i, position) in positions.iter().enumerate() {
        let name = give(alloc, known, &mut numbers, *position, i)?;
        let original = name_in(known.names, *position);
        let index = push_rename(&mut renames, original, name)?;
        indices.push(index)?;
    }
    Ok((renames, indices))
}

/// Appends the rename of an import to its new name, if it has one, and returns the index of that rename.
fn push_rename(
    renames: &mut RenameList,
    original: (&str, &str),
    name: Option<String>,
) -> Result<Option<usize>, AllocError>
    ensures { IfOk result (λ index. PushesRename renames.old renames.new (named original.entry)
        (option_map string_bytes name) index) }
{
    let Some(name) = name else {
        return Ok(None);
    };
    let index = renames.len();
    renames.push(original.0, original.1, name.as_str())?;
    Ok(Some(index))
}

/// The imports under their new names, by the indices of their renames.
pub(crate) fn renamed_imports<'a>(
    alloc: Global,
    imports: &[Import<'a>],
    indices: &[Option<usize>],
    renames: &'a RenameList,
) -> Result<Vec<Import<'a>>, AllocError>
    requires { length indices.now ≡ length imports.now }
    ensures { IfOk result (λ is. import_values is.items
        ≡ renamed_imports renames.now (import_values imports.now) indices.now) }
{
    let mut renamed = Vec::new(alloc);
    for (i, import) in imports.iter().enumerate() {
        renamed.push(renamed_import(import, indices[i], renames))?;
    }
    Ok(renamed)
}

/// The import under its new name, by the index of its rename.
fn renamed_import<'a>(
    import: &Import<'a>,
    index: Option<usize>,
    renames: &'a RenameList,
) -> Import<'a>
    ensures { import_value result
        ≡ renamed_import renames.now (import_value import.now) index }
{
    let name = match index.and_then(|k| renames.get(k)) {
        Some(rename) => rename.name,
        None => import.name,
    };
    Import {
        module: import.module,
        name,
        ty: import.ty,
    }
}
