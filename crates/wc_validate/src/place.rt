//! The places of faults of core modules.

ghost use Rattle.std.specs.Prelude.{Some};

use crate::signatures::names_types;
use std::fmt;
use wc_read::{FuncType, ReadPlace, ValType};

/// The subject of a fault, by its names.
#[derive(Debug, PartialEq, Eq, Drop)]
pub enum Subject {
    /// An import.
    Import {
        /// The name of the module that it comes from.
        module_name: String,
        /// The name of the import in that module.
        name: String,
        /// Its index among all imports.
        index: usize,
    },
    /// An export, by its name.
    Export(String),
    /// A function of an interface that is not exported.
    MissingFunction {
        /// The text of the interface's key.
        module_name: String,
        /// The name of the function in that interface.
        name: String,
    },
    /// An export that is not there, by its name.
    MissingExport(String),
    /// The bytes of the module, by the offset at which they are malformed.
    Bytes(ReadPlace),
}

impl fmt::Display for Subject {
    ghost use Rattle.wc_validate.specs.Place.{subject_view};
    ghost use Rattle.wc_validate.specs.Texts.{subject_text};

    ghost output = { λ subject. Some (subject_text (subject_view subject)) };

    /// Prints `import "m" "f"`, `export "f"`, `missing "m" "f"`, `missing export "f"`, or `byte 57, in the import
    /// section`. Names are printed as they are.
    fn fmt<W: fmt::Write>(&self, f: &mut fmt::Formatter<W>) -> fmt::Result {
        match self {
            Subject::Import {
                module_name,
                name,
                ..
            } => write!(f, "import \"{module_name}\" \"{name}\""),
            Subject::Export(name) => write!(f, "export \"{name}\""),
            Subject::MissingFunction { module_name, name } => {
                write!(f, "missing \"{module_name}\" \"{name}\"")
            }
            Subject::MissingExport(name) => write!(f, "missing export \"{name}\""),
            Subject::Bytes(place) => write!(f, "{place}"),
        }
    }
}

/// Two core types that differ.
#[derive(Debug, PartialEq, Eq, Drop)]
pub struct TypeDifference {
    /// The type that is wanted.
    pub wanted: FuncType,
    /// The type that is found.
    pub found: FuncType,
}

impl fmt::Display for TypeDifference {
    ghost use Rattle.wc_validate.specs.Place.{difference_view};
    ghost use Rattle.wc_validate.specs.Texts.{difference_text};

    ghost output = { λ d. Some (difference_text (difference_view d)) };

    /// Prints `wanted T, found T`. A type `T` looks like `(i32, i64) -> i32`; several results, or none, are in
    /// parentheses too. If the wanted type names types by their indices, as `((ref 1)) -> ()`, it is a type of
    /// another module, which imports the function. The line then is `wanted T by the types of the importing module,
    /// found T`.
    fn fmt<W: fmt::Write>(&self, f: &mut fmt::Formatter<W>) -> fmt::Result {
        let wanted = Signature(&self.wanted);
        let owner = TypeOwner(&self.wanted);
        let found = Signature(&self.found);
        write!(f, "wanted {wanted}{owner}, found {found}")
    }
}

/// The place of a fault: its subject, and the core types that differ, if it compares types.
#[derive(Debug, PartialEq, Eq, Drop)]
pub struct Place {
    pub subject: Subject,
    pub types: Option<TypeDifference>,
}

impl fmt::Display for Place {
    ghost use Rattle.wc_validate.specs.Place.{place_view};
    ghost use Rattle.wc_validate.specs.Texts.{place_text};

    ghost output = { λ place. Some (place_text (place_view place)) };

    /// The subject, and, if there are types, a line feed and their difference.
    fn fmt<W: fmt::Write>(&self, f: &mut fmt::Formatter<W>) -> fmt::Result {
        let subject = &self.subject;
        match &self.types {
            Some(types) => write!(f, "{subject}\n{types}"),
            None => write!(f, "{subject}"),
        }
    }
}

/// A value type, as it is printed.
#[derive(Clone, Copy)]
struct TypeName(ValType);

impl fmt::Display for TypeName {
    ghost use Rattle.wc_validate.specs.Texts.{type_name};

    ghost output = { λ t. Some (type_name t.0) };

    fn fmt<W: fmt::Write>(&self, f: &mut fmt::Formatter<W>) -> fmt::Result {
        match self.0 {
            ValType::I32 => f.write_str("i32"),
            ValType::I64 => f.write_str("i64"),
            ValType::F32 => f.write_str("f32"),
            ValType::F64 => f.write_str("f64"),
            ValType::V128 => f.write_str("v128"),
            ValType::FuncRef => f.write_str("funcref"),
            ValType::ExternRef => f.write_str("externref"),
            ValType::FuncRefNonNull => f.write_str("(ref func)"),
            ValType::ExternRefNonNull => f.write_str("(ref extern)"),
            ValType::TypeRef { nullable, index } => {
                if nullable {
                    write!(f, "(ref null {index})")
                } else {
                    write!(f, "(ref {index})")
                }
            }
        }
    }
}

/// Value types, with `, ` between two of them.
#[derive(Clone, Copy)]
struct TypeList<'a>(&'a [ValType]);

impl fmt::Display for TypeList<'_> {
    ghost use Rattle.wc_validate.specs.Texts.{type_list_text};

    ghost output = { λ types. Some (type_list_text types.0.now) };

    fn fmt<W: fmt::Write>(&self, f: &mut fmt::Formatter<W>) -> fmt::Result {
        if let [first, rest @ ..] = self.0 {
            write!(f, "{}", TypeName(*first))?;
            for ty in rest {
                write!(f, ", {}", TypeName(*ty))?;
            }
        }
        Ok(())
    }
}

/// The results of a function type: one alone, and any other number of them in parentheses.
#[derive(Clone, Copy)]
struct ResultTypes<'a>(&'a [ValType]);

impl fmt::Display for ResultTypes<'_> {
    ghost use Rattle.wc_validate.specs.Texts.{results_text};

    ghost output = { λ types. Some (results_text types.0.now) };

    fn fmt<W: fmt::Write>(&self, f: &mut fmt::Formatter<W>) -> fmt::Result {
        match self.0 {
            [ty] => write!(f, "{}", TypeName(*ty)),
            types => write!(f, "({})", TypeList(types)),
        }
    }
}

/// A function type, as it is printed.
#[derive(Clone, Copy)]
struct Signature<'a>(&'a FuncType);

impl fmt::Display for Signature<'_> {
    ghost use Rattle.wc_read.specs.Types.{func_type_value};
    ghost use Rattle.wc_validate.specs.Texts.{signature_text};

    ghost output = { λ ty. Some (signature_text (func_type_value ty.0.now)) };

    fn fmt<W: fmt::Write>(&self, f: &mut fmt::Formatter<W>) -> fmt::Result {
        let params = TypeList(self.0.params());
        let results = ResultTypes(self.0.results());
        write!(f, "({params}) -> {results}")
    }
}

/// Whose types the indices of a type that is wanted are, if it has any.
#[derive(Clone, Copy)]
struct TypeOwner<'a>(&'a FuncType);

impl fmt::Display for TypeOwner<'_> {
    ghost use Rattle.wc_read.specs.Types.{func_type_value, names_types};
    ghost use Rattle.wc_validate.specs.Texts.{owner_text};

    ghost output = { λ ty. Some (owner_text (names_types (func_type_value ty.0.now))) };

    fn fmt<W: fmt::Write>(&self, f: &mut fmt::Formatter<W>) -> fmt::Result {
        if names_types(self.0) {
            f.write_str(" by the types of the importing module")
        } else {
            Ok(())
        }
    }
}
