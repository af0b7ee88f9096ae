//! The imports of an interface by a component: by which modules, and what it takes for the interface to go.

ghost use Rattle.std.specs.Prelude.{◌≡◌, map};
ghost use Rattle.std.specs.List.{list_any};
ghost use Rattle.wc_summary.specs.Summary.{bytes_of, kind_by, kind_name, kind_of, kind_rank, part_view, parts_view, rank_of, stays_in};

use wc_maps::Map;

/// The imports of an interface by the main module.
#[derive(Drop)]
pub struct MainPart {
    /// How many of its imports are of the interface.
    pub imports: usize,
    /// The reachable functions that name such an import, by their indices. It is empty if the module can't be followed.
    pub by: Vec<u32>,
}

/// The imports of an interface by an adapter, or by another core module.
#[derive(Drop)]
pub struct AdapterPart<'a> {
    /// Its name.
    pub adapter: &'a str,
    /// Whether it is a library, of which only its imports are known.
    pub is_library: bool,
    /// How many of its imports are of the interface.
    pub imports: usize,
    /// The required exports that lead to one of these, and that the main module imports.
    pub exports: Vec<String>,
    /// Those that are required whatever the main module imports.
    pub stays: Vec<String>,
    /// Where else a path to one of these begins: at the start function, or at a segment. It is empty for an adapter
    /// that is trimmed.
    pub roots: Vec<String>,
    /// How many functions are live for these exports alone.
    pub functions: usize,
    /// How many bytes their bodies have.
    pub bytes: usize,
}

/// The imports of an interface by the modules of a component.
#[derive(Drop)]
pub struct Entry<'a> {
    /// By the main module.
    pub main: MainPart,
    /// By each adapter that imports something of it, in order.
    pub adapters: Vec<AdapterPart<'a>>,
    /// Whether it is imported for its types, and the first interface that uses them.
    pub types: Option<Option<String>>,
}

/// Interfaces, each with what is imported of it.
pub type Entries<'a> = Map<String, Entry<'a>>;

/// The conditions for an interface to go, in the order in which interfaces are listed.
#[derive(Clone, Copy, Debug, PartialEq, Eq)]
pub(crate) enum Kind {
    /// The main module imports it itself.
    Main,
    /// It goes with exports of adapters that the main module imports.
    Goes,
    /// It is imported for its types alone.
    Types,
    /// It stays whatever the main module imports.
    Stays,
}

impl Kind {
    /// The name of the kind.
    pub(crate) fn name(self) -> &'static str
        ensures { result.now ≡ kind_name self }
    {
        match self {
            Kind::Main => "main",
            Kind::Goes => "goes",
            Kind::Types => "types",
            Kind::Stays => "stays",
        }
    }

    /// Its place in the order.
    pub(crate) fn rank(self) -> u8
        ensures { result ≡ kind_rank self }
    {
        match self {
            Kind::Main => 0,
            Kind::Goes => 1,
            Kind::Types => 2,
            Kind::Stays => 3,
        }
    }
}

impl<'a> Entry<'a> {
    /// The condition for the interface to go.
    pub(crate) fn kind(&self) -> Kind
        ensures { result ≡ kind_of (parts_view self.now) }
    {
        kind_by(
            self.main.imports > 0,
            self.adapters.is_empty(),
            any_stays(&self.adapters),
        )
    }

    /// Where it is listed: by its kind, and then the more bytes go with it the earlier.
    pub(crate) fn rank(&self) -> (u8, usize)
        ensures { result ≡ rank_of (parts_view self.now) }
    {
        let bytes = bytes_of(&self.adapters);
        (self.kind().rank(), usize::MAX - bytes)
    }
}

/// How many bytes of adapters go with an interface, or as many as a number counts.
fn bytes_of(parts: &[AdapterPart<'_>]) -> usize
    ensures { result ≡ bytes_of (map part_view parts.now) }
{
    let mut bytes: usize = 0;
    for part in parts {
        bytes = bytes.saturating_add(part.bytes);
    }
    bytes
}

/// The condition for an interface to go. `has_main`: the main module imports it; `has_none`: no adapter does;
/// `has_staying`: an adapter does, whatever the main module imports.
fn kind_by(has_main: bool, has_none: bool, has_staying: bool) -> Kind
    ensures { result ≡ kind_by has_main has_none has_staying }
{
    if has_main {
        Kind::Main
    } else if has_none {
        Kind::Types
    } else if has_staying {
        Kind::Stays
    } else {
        Kind::Goes
    }
}

/// Whether one of these adapters imports of an interface whatever the main module imports.
fn any_stays(parts: &[AdapterPart<'_>]) -> bool
    ensures { result ≡ list_any (λ p. stays_in (part_view p)) parts.now }
{
    parts.iter().any(|part| stays(part))
}

/// Whether an adapter imports of an interface whatever the main module imports.
pub(crate) fn stays(part: &AdapterPart<'_>) -> bool
    ensures { result ≡ stays_in (part_view part.now) }
{
    part.is_library || !part.stays.is_empty() || !part.roots.is_empty()
}
