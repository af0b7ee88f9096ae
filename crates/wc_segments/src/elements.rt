//! Element segments, in their eight forms.

ghost use Rattle.std.specs.Prelude.{◌≡◌, ℕ, List};
ghost use Rattle.wc_read.specs.Reading.Inits.{init_bytes_at};
ghost use Rattle.wc_read.specs.Reading.Reader.{Gives, GivesWithoutMemory};
ghost use Rattle.wc_segments.specs.Elements.{ElementValue, element_value, elements_value, form, form_of};
ghost use Rattle.wc_segments.specs.Reading.Elements.{element_at, elements_at, form_at, kind_at, reference_at, type_at};

use crate::modes::{ModeForm, SegmentMode, read_mode};
use std::alloc::Global;
use wc_read::{ReadFault, Reader, Spelled, ValType, is_reference};

/// The byte of the one kind of elements: functions (WebAssembly core specification, 5.5.12).
const FUNCTION_KIND: u8 = 0;

/// A constant expression among the elements of a segment (2.5.7).
#[derive(Clone, Copy, Debug, PartialEq, Eq)]
pub struct Expression<'a> {
    /// Its bytes, its `end` among them.
    pub bytes: &'a [u8],
}

impl<'a> Spelled<'a> for Expression<'a> {
    ghost Value = { List ℕ };

    ghost view = { λ e. e.bytes.now };

    ghost read = { init_bytes_at };

    fn read_from(alloc: Global, reader: &mut Reader<'a>) -> Result<Expression<'a>, ReadFault> {
        let bytes = reader.init(alloc)?;
        Ok(Expression { bytes })
    }
}

/// The elements of a segment, in their order (2.5.7).
#[derive(Debug, PartialEq, Eq, Drop)]
pub enum Elements<'a> {
    /// Functions, by their indices.
    Functions(Vec<u32>),
    /// Constant expressions.
    Expressions(Vec<Expression<'a>>),
}

/// An element segment (2.5.7).
#[derive(Debug, PartialEq, Eq, Drop)]
pub struct ElementSegment<'a> {
    /// How it is used. An active one fills a table.
    pub mode: SegmentMode<'a>,
    /// The type of its elements, a reference type.
    pub ty: ValType,
    /// Its elements.
    pub elements: Elements<'a>,
}

/// The form in which bytes give the type of elements (5.5.12).
#[derive(Clone, Copy, Debug, PartialEq, Eq)]
pub enum TypeForm {
    /// Nothing, of functions.
    Nothing,
    /// A kind.
    Kind,
    /// A reference type.
    Reference,
}

/// A form of element segments (5.5.12).
#[derive(Clone, Copy, Debug, PartialEq, Eq)]
pub struct ElementForm {
    pub mode: ModeForm,
    pub ty: TypeForm,
    /// Whether elements are expressions; else they are indices of functions.
    pub has_expressions: bool,
}

/// The form of element segments that flags say (5.5.12).
#[tactic(auto, unfolding(crate::specs::Elements::form_of))]
fn form_of(flags: u32) -> Option<ElementForm>
    ensures { result ≡ form_of flags }
{
    match flags {
        0 => Some(form(ModeForm::First, TypeForm::Nothing, false)),
        1 => Some(form(ModeForm::Passive, TypeForm::Kind, false)),
        2 => Some(form(ModeForm::Named, TypeForm::Kind, false)),
        3 => Some(form(ModeForm::Declarative, TypeForm::Kind, false)),
        4 => Some(form(ModeForm::First, TypeForm::Nothing, true)),
        5 => Some(form(ModeForm::Passive, TypeForm::Reference, true)),
        6 => Some(form(ModeForm::Named, TypeForm::Reference, true)),
        7 => Some(form(ModeForm::Declarative, TypeForm::Reference, true)),
        _ => None,
    }
}

fn form(mode: ModeForm, ty: TypeForm, has_expressions: bool) -> ElementForm
    ensures { result ≡ form mode ty has_expressions }
{
    ElementForm {
        mode,
        ty,
        has_expressions,
    }
}

/// The flags that an element segment begins with.
#[tactic(auto, unfolding(crate::specs::Reading::Elements::form_at))]
fn read_form(reader: &mut Reader<'_>) -> Result<ElementForm, ReadFault>
    ensures { GivesWithoutMemory (λ f. f) result reader.new.rest.now
        (form_at reader.old.rest.now) }
{
    let flags = reader.u32()?;
    match form_of(flags) {
        Some(form) => Ok(form),
        None => Err(ReadFault::BadType),
    }
}

/// The type of elements, in its form.
fn read_type(reader: &mut Reader<'_>, form: TypeForm) -> Result<ValType, ReadFault>
    ensures { GivesWithoutMemory (λ t. t) result reader.new.rest.now
        (type_at form reader.old.rest.now) }
{
    match form {
        TypeForm::Nothing => Ok(ValType::FuncRef),
        TypeForm::Kind => read_kind(reader),
        TypeForm::Reference => read_reference(reader),
    }
}

/// The kind of elements, as their type.
#[tactic(auto, unfolding(crate::specs::Reading::Elements::kind_at))]
fn read_kind(reader: &mut Reader<'_>) -> Result<ValType, ReadFault>
    ensures { GivesWithoutMemory (λ t. t) result reader.new.rest.now
        (kind_at reader.old.rest.now) }
{
    if reader.byte()? == FUNCTION_KIND {
        Ok(ValType::FuncRef)
    } else {
        Err(ReadFault::BadType)
    }
}

/// A reference type.
#[tactic(auto, unfolding(crate::specs::Reading::Elements::reference_at))]
fn read_reference(reader: &mut Reader<'_>) -> Result<ValType, ReadFault>
    ensures { GivesWithoutMemory (λ t. t) result reader.new.rest.now
        (reference_at reader.old.rest.now) }
{
    let ty = reader.val_type()?;
    if is_reference(ty) {
        Ok(ty)
    } else {
        Err(ReadFault::BadType)
    }
}

/// The elements: expressions, or indices of functions.
#[tactic(auto, unfolding(crate::specs::Reading::Elements::elements_at))]
fn read_elements<'a>(
    reader: &mut Reader<'a>,
    alloc: Global,
    has_expressions: bool,
) -> Result<Elements<'a>, ReadFault>
    ensures { Gives (λ e. elements_value e) result reader.new.rest.now
        (elements_at has_expressions reader.old.rest.now) }
{
    if has_expressions {
        let expressions = reader.vector::<Expression>(alloc)?;
        Ok(Elements::Expressions(expressions))
    } else {
        let functions = reader.vector::<u32>(alloc)?;
        Ok(Elements::Functions(functions))
    }
}

impl<'a> Spelled<'a> for ElementSegment<'a> {
    ghost Value = { ElementValue };

    ghost view = { λ e. element_value e };

    ghost read = { element_at };

    #[tactic(auto, unfolding(crate::specs::Reading::Elements::element_at))]
    fn read_from(alloc: Global, reader: &mut Reader<'a>) -> Result<ElementSegment<'a>, ReadFault> {
        let form = read_form(reader)?;
        let mode = read_mode(reader, alloc, form.mode)?;
        let ty = read_type(reader, form.ty)?;
        let elements = read_elements(reader, alloc, form.has_expressions)?;
        Ok(ElementSegment { mode, ty, elements })
    }
}
