//! The things that are asked about: imports of a component's modules, and interfaces that it imports for their types alone.

ghost use Rattle.std.specs.Prelude.{◌≡◌};
ghost use Rattle.std.specs.Option.{option_map};
ghost use Rattle.wc_why.specs.Tree.{tree_import_view, tree_way_view};
ghost use Rattle.wc_ways.specs.Wanted.{side_text, typed_way, way_of, way_with};
ghost use Rattle.wc_ways.specs.Private.Wanted.{wanted_view};
ghost use Rattle.wc_ways.specs.Private.TypedFound.{typed_view};

use crate::needs::WorldSide;
use crate::typed_found::{FoundEnd, FoundTyped};
use wc_why::{End, Target, TreeImport, TreeWay};

/// A thing that is asked about, and the item at the end of the path to it.
#[derive(Drop)]
pub(crate) struct Wanted<'a> {
    pub(crate) what: What<'a>,
    pub(crate) target: Target,
}

/// A thing that is asked about.
#[derive(Drop)]
pub(crate) enum What<'a> {
    /// An import of a module.
    Import {
        /// The name of its interface.
        interface: &'a str,
        /// Its own name.
        name: &'a str,
        /// The names that the module has for it.
        import: TreeImport<'a>,
    },
    /// An interface that is imported for its types alone.
    Types(FoundTyped<'a>),
}

/// The path to what is asked about, by where it ends; none to an import to which no path leads.
pub(crate) fn way_of<'a>(wanted: &'a Wanted<'a>, end: Option<End>) -> Option<TreeWay<'a>>
    ensures { option_map tree_way_view result ≡ way_of (wanted_view wanted.now) end }
{
    match (&wanted.what, end) {
        (
            What::Import {
                interface,
                name,
                import,
            },
            Some(end),
        ) => Some(TreeWay {
            interface: Some(interface),
            name: Some(name),
            module: Some(end.module),
            item: Some(end.item),
            import: Some(*import),
            ty: None,
            function: None,
        }),
        (What::Import { .. }, None) => None,
        (What::Types(typed), _) => Some(typed_way(typed, end)),
    }
}

/// The path for types alone, by where it ends.
fn typed_way<'a>(typed: &'a FoundTyped<'a>, end: Option<End>) -> TreeWay<'a>
    ensures { tree_way_view result ≡ typed_way (typed_view typed.now) end }
{
    match (&typed.end, end) {
        (FoundEnd::World { side, name }, _) => {
            let import = TreeImport {
                module: side_text(*side),
                name,
            };
            way_with(typed, None, None, Some(import))
        }
        (FoundEnd::Main(import), Some(end)) => {
            way_with(typed, Some(end.module), Some(end.item), Some(*import))
        }
        (FoundEnd::Adapter(_, import), Some(end)) => {
            way_with(typed, Some(end.module), Some(end.item), Some(*import))
        }
        (FoundEnd::Library(part, import), _) => way_with(typed, Some(*part), None, Some(*import)),
        (FoundEnd::Nowhere, _) | (FoundEnd::Main(_), None) | (FoundEnd::Adapter(_, _), None) =>
            way_with(typed, None, None, None),
    }
}

/// A path for types alone.
fn way_with<'a>(
    typed: &'a FoundTyped<'a>,
    part: Option<usize>,
    item: Option<usize>,
    import: Option<TreeImport<'a>>,
) -> TreeWay<'a>
    ensures { tree_way_view result ≡ way_with (typed_view typed.now) part item
        (option_map tree_import_view import.entry) }
{
    TreeWay {
        interface: Some(typed.interface),
        name: None,
        module: part,
        item,
        import,
        ty: typed.ty,
        function: None,
    }
}

/// The text that stands for a module at the world's own imports or exports.
fn side_text(side: WorldSide) -> &'static str
    ensures { result.now ≡ side_text side }
{
    match side {
        WorldSide::Imports => "world imports",
        WorldSide::Exports => "world exports",
    }
}
