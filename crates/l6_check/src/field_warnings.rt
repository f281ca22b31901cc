//! The warnings of fields that a deck uses and does not define.

ghost use Rattle.std.specs.Prelude.{◌≡◌, ℕ, ◌+◌, ◌≤◌, ◌<◌, ◌^◌, ◌++◌, [], ◌∷◌, List, Some, replicate, false, IfOk, OnOk, if◌then◌else◌};
ghost use Rattle.std.specs.List.{flat_map};
ghost use Rattle.l6_prog.specs.Numerals.{name_count};
ghost use Rattle.l6_check.specs.Kept.{Say};
ghost use Rattle.l6_check.specs.Fields as spec;
ghost use Rattle.l6_check.specs.inner.Marks.{marked, is_marked as marked_in};

use crate::field_places::{FieldPlaces, Place, field_places};
use crate::finding::{Finding, Span};
use crate::findings::Findings;
use crate::marks::{Marker, is_marked, mark, mark_each};
use crate::reason::{Reason, WarningReason};
use l6_prog::{Chain, NAMES, Name, Op, Operand, Program, Statement, Test};
use std::alloc::{AllocError, Global};

/// Marks of fields, by the numbers of their names.
#[derive(Clone, Copy)]
struct Fields {
    /// Those that chains have.
    used: [bool; NAMES as usize],
    /// Those that something may define.
    defined: [bool; NAMES as usize],
}

/// The warnings of fields that a program uses and does not define, in the order of their names. The
/// place of each is the first one in the deck.
///
/// # Errors
///
/// Memory ran out.
pub fn undefined_fields<'a>(
    alloc: Global,
    program: &Program,
    deck: &'a [u8],
) -> Result<Findings<'a>, AllocError>
    ensures { IfOk result (Say spec.field_said (spec.undefined_fields program.now)) }
{
    let fields = fields_of(program.statements());
    let places = if has_undefined(&fields) {
        field_places(deck)
    } else {
        FieldPlaces::none()
    };
    let mut found = Findings::new(alloc);
    for number in 0..NAMES {
        add_if_undefined(&mut found, &fields, number, &places)?;
    }
    Ok(found)
}

/// Adds a warning if the field of this number is used and not defined.
fn add_if_undefined<'a>(
    found: &mut Findings<'a>,
    fields: &Fields,
    number: u8,
    places: &FieldPlaces<'a>,
) -> Result<(), AllocError>
    requires { found.old.count + 1 < 2 ^ 32 }
    ensures said { let more = if spec.is_undefined (marked_in fields.now.used)
        (marked_in fields.now.defined) number then number ∷ [] else [] in
        OnOk result ((things : List ℕ) → Say spec.field_said things found.old →
        Say spec.field_said (things ++ more) found.new) }
    ensures count { OnOk result (found.new.count ≤ found.old.count + 1) }
{
    if !is_undefined(fields, number) {
        return Ok(());
    }
    found.add(undefined_at(number, places.of(number)))
}

/// Whether the field of this number is used and not defined.
fn is_undefined(fields: &Fields, number: u8) -> bool
    ensures { result ≡ spec.is_undefined (marked_in fields.now.used)
        (marked_in fields.now.defined) number }
{
    is_marked(&fields.used, usize::from(number)) && !is_marked(&fields.defined, usize::from(number))
}

/// Whether some field is used and not defined.
fn has_undefined(fields: &Fields) -> bool {
    for number in 0..NAMES {
        if is_undefined(fields, number) {
            return true;
        }
    }
    false
}

/// The warning of the field of this number at its first place.
fn undefined_at(field: u8, place: Place<'_>) -> Finding<'_>
    ensures { spec.field_said result ≡ Some field }
{
    Finding {
        card: place.card,
        span: Span::on_card(place.from, place.to),
        text: place.text,
        line: place.line,
        reason: Reason::Warning(WarningReason::UndefinedField(field)),
    }
}

/// The fields that statements use, and those that they may define.
fn fields_of(statements: &[Statement]) -> Fields
    ensures used { result.used
        ≡ marked (replicate name_count false) (flat_map spec.fields_of statements.now) }
    ensures defined { result.defined
        ≡ marked (replicate name_count false) (flat_map spec.defined_in statements.now) }
{
    let mut used = [false; NAMES as usize];
    let mut defined = [false; NAMES as usize];
    for statement in statements {
        mark_each::<Used, Test>(&mut used, statement.tests());
        mark_each::<Used, Op>(&mut used, statement.operations());
        mark_each::<Defined, Op>(&mut defined, statement.operations());
    }
    Fields { used, defined }
}

/// The fields that something uses.
struct Used;

impl Marker<Test> for Used {
    ghost numbers = { spec.fields_of_test };

    fn mark_of(marks: &mut [bool], test: &Test) {
        mark_both(marks, &test.chain, &test.operand);
    }
}

impl Marker<Op> for Used {
    ghost numbers = { spec.fields_of_operation };

    #[tactic(auto, using(crate::proofs::Marking::marked_append))]
    fn mark_of(marks: &mut [bool], operation: &Op) {
        match operation {
            Op::Set(chain, operand)
            | Op::Add(chain, operand)
            | Op::Subtract(chain, operand)
            | Op::Multiply(chain, operand)
            | Op::Divide(chain, operand)
            | Op::Remainder(chain, operand)
            | Op::And(chain, operand)
            | Op::Or(chain, operand)
            | Op::ExclusiveOr(chain, operand)
            | Op::Complement(chain, operand)
            | Op::ShiftLeft(chain, operand)
            | Op::ShiftRight(chain, operand)
            | Op::Duplicate(chain, operand, _)
            | Op::Input(chain, operand, _)
            | Op::PrintCharacters(chain, operand) => mark_both(marks, chain, operand),
            Op::Exchange(one, other) => {
                mark_chain(marks, one);
                mark_chain(marks, other);
            }
            Op::Define(_, word, first, last) => {
                mark_operand(marks, word);
                mark_operand(marks, first);
                mark_operand(marks, last);
            }
            Op::SaveContent(chain)
            | Op::RestoreContent(chain)
            | Op::PrintDecimal(chain)
            | Op::PrintOctal(chain) => mark_chain(marks, chain),
            Op::Get(chain, size, Some(old), _) => {
                mark_both(marks, chain, size);
                mark_chain(marks, old);
            }
            Op::Get(chain, size, None, _) => mark_both(marks, chain, size),
            Op::Free(chain, Some(value)) => mark_both(marks, chain, value),
            Op::Free(chain, None) => mark_chain(marks, chain),
            Op::SaveDefinition(_)
            | Op::RestoreDefinition(_)
            | Op::PrintText(_)
            | Op::Call(_, _)
            | Op::PrintLine => {}
        }
    }
}

/// The fields that something may define.
struct Defined;

impl Marker<Op> for Defined {
    ghost numbers = { spec.defined_by };

    fn mark_of(marks: &mut [bool], operation: &Op) {
        match operation {
            Op::Define(field, _, _, _) | Op::RestoreDefinition(field) => {
                mark(marks, usize::from(field.number()))
            }
            _ => {}
        }
    }
}

/// Marks the fields of a chain and an operand.
#[tactic(auto, using(crate::proofs::Marking::marked_append))]
fn mark_both(used: &mut [bool], chain: &Chain, operand: &Operand)
    ensures { used.new ≡ marked used.old (spec.fields_of_both chain.now operand.now) }
{
    mark_chain(used, chain);
    mark_operand(used, operand);
}

/// Marks the fields of an operand.
fn mark_operand(used: &mut [bool], operand: &Operand)
    ensures { used.new ≡ marked used.old (spec.fields_of_operand operand.now) }
{
    match operand {
        Operand::Chain(chain) => mark_chain(used, chain),
        Operand::Number(_) => {}
    }
}

/// Marks the fields of a chain.
fn mark_chain(used: &mut [bool], chain: &Chain)
    ensures { used.new ≡ marked used.old (spec.fields_of_chain chain.now) }
{
    if let Some((_, fields)) = chain.names().split_first() {
        mark_names(used, fields);
    }
}

/// Marks the fields of these names.
fn mark_names(used: &mut [bool], fields: &[Name])
    ensures { used.new ≡ marked used.old fields.now }
{
    for field in fields {
        mark(used, usize::from(field.number()));
    }
}
