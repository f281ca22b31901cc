//! Operations.

ghost use Rattle.std.specs.Prelude.{◌≡◌, ⊤, true, option_to_list};
ghost use Rattle.std.specs.List.{list_all};
ghost use Rattle.l6_prog.specs.Chain.{is_chain};
ghost use Rattle.l6_prog.specs.Target.{targets_of_operation, is_below};
ghost use Rattle.l6_prog.specs.Values.{is_operand, is_operation};

use crate::chain::Chain;
use crate::name::Name;
use crate::operand::Operand;
use crate::print_text::PrintText;
use std::alloc::AllocError;

/// An operation of a statement. `L` is what names a statement: its number in a program, its label
/// in a deck.
///
/// A variant's line shows how it is written on a card: c and c2 are chains, cd is a chain or a
/// number, f is a name, and L and L2 are labels. The *content* of c is what the locus holds to
/// which c leads, and c *becomes* a value when that value is assigned there, cut to as many bits as
/// the locus has: its *width*.
#[derive(Debug, Drop)]
pub enum Op<L = u16> {
    /// `(c,E,cd)`: c becomes the operand.
    Set(Chain, Operand),
    /// `(c,A,cd)`: c becomes the sum of its content and the operand.
    Add(Chain, Operand),
    /// `(c,S,cd)`: c becomes its content less the operand.
    Subtract(Chain, Operand),
    /// `(c,M,cd)`: c becomes the product of its content and the operand.
    Multiply(Chain, Operand),
    /// `(c,V,cd)`: c becomes the quotient of its content by the operand.
    Divide(Chain, Operand),
    /// `(c,Y,cd)`: c becomes the remainder of its content by the operand.
    Remainder(Chain, Operand),
    /// `(c,N,cd)`: c becomes its content and the operand, bit by bit.
    And(Chain, Operand),
    /// `(c,O,cd)`: c becomes its content or the operand, bit by bit.
    Or(Chain, Operand),
    /// `(c,X,cd)`: c becomes its content exclusive-or the operand, bit by bit.
    ExclusiveOr(Chain, Operand),
    /// `(c,C,cd)`: c becomes the operand with each bit turned.
    Complement(Chain, Operand),
    /// `(c,L,cd)`: c becomes its content, shifted left by as many bits as the operand says.
    ShiftLeft(Chain, Operand),
    /// `(c,R,cd)`: c becomes its content, shifted right by as many bits as the operand says.
    ShiftRight(Chain, Operand),
    /// `(c,I,c2)`: c and c2 exchange their contents.
    Exchange(Chain, Chain),
    /// `(cd,Df,cd,cd)`: defines the field f by its word, its first bit and its last bit, in this
    /// order.
    Define(Name, Operand, Operand, Operand),
    /// `(S,FC,c)`: saves the content of c on the pushdown of contents.
    SaveContent(Chain),
    /// `(R,FC,c)`: c becomes the content that was saved last, which leaves the pushdown.
    RestoreContent(Chain),
    /// `(S,FD,f)`: saves the definition of the field f, or that it has none, on the pushdown of
    /// definitions.
    SaveDefinition(Name),
    /// `(R,FD,f)`: f gets the definition that was saved last, which leaves the pushdown.
    RestoreDefinition(Name),
    /// `(c,GT,cd)`, `(c,GT,cd,c2)`, `(c,GT,cd,c2,L)`, `(c,GT,cd,,L)`: gets a block of zeros that
    /// has at least as many words as the operand says. c becomes its place, and c2, if given, the
    /// old content of c. Where no block can be had, the run goes to L.
    Get(Chain, Operand, Option<Chain>, Option<L>),
    /// `(c,DP,cd)`, `(c,DP,cd,,L)`: gets a copy of the block at the operand, and c becomes its
    /// place. Where no block can be had, the run goes to L.
    Duplicate(Chain, Operand, Option<L>),
    /// `(c,FR)`, `(c,FR,cd)`: frees the block at the content of c. Then c becomes the operand, or 0
    /// without one, unless c lay in that block.
    Free(Chain, Option<Operand>),
    /// `(L,DO)`, `(L,DO,L2)`: calls the statement L. After its DONE the run goes on after the
    /// call, and after its FAIL at the fail label L2.
    Call(L, Option<L>),
    /// `(c,IN,cd)`, `(c,IN,cd,L)`: takes as many characters of the input as the operand says, and c
    /// becomes the number that they stand for. If the input has too few left, the run goes to L.
    Input(Chain, Operand, Option<L>),
    /// `(c,PR,cd)`: prints the last characters that the content of c stands for, as many as the
    /// operand says.
    PrintCharacters(Chain, Operand),
    /// `(c,PD)`: prints the content of c in decimal, without leading zeros.
    PrintDecimal(Chain),
    /// `(c,PO)`: prints the content of c as twelve octal digits.
    PrintOctal(Chain),
    /// `(text,PH)`: prints the text.
    PrintText(PrintText),
    /// `(PL)`: prints a line feed.
    PrintLine,
}

/// A clone is the same operation. It takes no memory.
impl<L: Copy> Clone for Op<L> {
    ghost is_clone = { λ operation copy. copy ≡ operation };

    ghost is_infallible = { λ _. ⊤ };

    fn clone(&self) -> Result<Self, AllocError> {
        match self {
            Op::Set(chain, operand) => Ok(Op::Set(chain.clone()?, operand.clone()?)),
            Op::Add(chain, operand) => Ok(Op::Add(chain.clone()?, operand.clone()?)),
            Op::Subtract(chain, operand) => Ok(Op::Subtract(chain.clone()?, operand.clone()?)),
            Op::Multiply(chain, operand) => Ok(Op::Multiply(chain.clone()?, operand.clone()?)),
            Op::Divide(chain, operand) => Ok(Op::Divide(chain.clone()?, operand.clone()?)),
            Op::Remainder(chain, operand) => Ok(Op::Remainder(chain.clone()?, operand.clone()?)),
            Op::And(chain, operand) => Ok(Op::And(chain.clone()?, operand.clone()?)),
            Op::Or(chain, operand) => Ok(Op::Or(chain.clone()?, operand.clone()?)),
            Op::ExclusiveOr(chain, operand) => Ok(Op::ExclusiveOr(
                chain.clone()?,
                operand.clone()?,
            )),
            Op::Complement(chain, operand) => Ok(Op::Complement(chain.clone()?, operand.clone()?)),
            Op::ShiftLeft(chain, operand) => Ok(Op::ShiftLeft(chain.clone()?, operand.clone()?)),
            Op::ShiftRight(chain, operand) => Ok(Op::ShiftRight(chain.clone()?, operand.clone()?)),
            Op::Exchange(one, other) => Ok(Op::Exchange(one.clone()?, other.clone()?)),
            Op::Define(field, word, first, last) => {
                Ok(Op::Define(*field, word.clone()?, first.clone()?, last.clone()?))
            }
            Op::SaveContent(chain) => Ok(Op::SaveContent(chain.clone()?)),
            Op::RestoreContent(chain) => Ok(Op::RestoreContent(chain.clone()?)),
            Op::SaveDefinition(field) => Ok(Op::SaveDefinition(*field)),
            Op::RestoreDefinition(field) => Ok(Op::RestoreDefinition(*field)),
            Op::Get(chain, size, old, label) => {
                Ok(Op::Get(chain.clone()?, size.clone()?, old.clone()?, *label))
            }
            Op::Duplicate(chain, block, label) => {
                Ok(Op::Duplicate(chain.clone()?, block.clone()?, *label))
            }
            Op::Free(chain, value) => Ok(Op::Free(chain.clone()?, value.clone()?)),
            Op::Call(called, fail) => Ok(Op::Call(*called, *fail)),
            Op::Input(chain, count, label) => {
                Ok(Op::Input(chain.clone()?, count.clone()?, *label))
            }
            Op::PrintCharacters(chain, count) => {
                Ok(Op::PrintCharacters(chain.clone()?, count.clone()?))
            }
            Op::PrintDecimal(chain) => Ok(Op::PrintDecimal(chain.clone()?)),
            Op::PrintOctal(chain) => Ok(Op::PrintOctal(chain.clone()?)),
            Op::PrintText(text) => Ok(Op::PrintText(text.clone()?)),
            Op::PrintLine => Ok(Op::PrintLine),
        }
    }
}

impl<L> Op<L> {
    /// Does nothing. Its clause gives the prover what is true of every operation.
    #[inline(always)]
    pub(crate) fn reveal(&self)
        ensures { is_operation self.now ≡ true }
    {
        match self {
            Op::Set(chain, operand)
            | Op::Add(chain, operand)
            | Op::Subtract(chain, operand)
            | Op::Multiply(chain, operand)
            | Op::Divide(chain, operand)
            | Op::Remainder(chain, operand)
            | Op::And(chain, operand)
            | Op::Or(chain, operand)
            | Op::ExclusiveOr(chain, operand)
            | Op::Complement(chain, operand)
            | Op::ShiftLeft(chain, operand)
            | Op::ShiftRight(chain, operand)
            | Op::Duplicate(chain, operand, _)
            | Op::Input(chain, operand, _)
            | Op::PrintCharacters(chain, operand) => reveal_both(chain, operand),
            Op::Exchange(one, other) => {
                one.reveal();
                other.reveal();
            }
            Op::Define(field, word, first, last) => {
                field.reveal();
                word.reveal();
                first.reveal();
                last.reveal();
            }
            Op::SaveContent(chain)
            | Op::RestoreContent(chain)
            | Op::PrintDecimal(chain)
            | Op::PrintOctal(chain) => chain.reveal(),
            Op::SaveDefinition(field) | Op::RestoreDefinition(field) => field.reveal(),
            Op::Get(chain, size, Some(old), _) => {
                reveal_both(chain, size);
                old.reveal();
            }
            Op::Get(chain, size, None, _) => reveal_both(chain, size),
            Op::Free(chain, Some(value)) => reveal_both(chain, value),
            Op::Free(chain, None) => chain.reveal(),
            Op::PrintText(text) => text.reveal(),
            Op::Call(_, _) | Op::PrintLine => {}
        }
    }
}

/// Does nothing. Its clause gives the prover what is true of a chain and an operand.
#[inline(always)]
fn reveal_both(chain: &Chain, operand: &Operand)
    ensures chain { is_chain chain.now ≡ true }
    ensures operand { is_operand operand.now ≡ true }
{
    chain.reveal();
    operand.reveal();
}

impl Op {
    /// Whether each target of the operation is below a number.
    pub(crate) fn leads_below(&self, end: usize) -> bool
        ensures { result ≡ list_all (is_below end) (targets_of_operation self.now) }
    {
        match self {
            Op::Get(_, _, _, label) | Op::Duplicate(_, _, label) | Op::Input(_, _, label) => {
                is_target(*label, end)
            }
            Op::Call(called, fail) => is_target(Some(*called), end) && is_target(*fail, end),
            _ => true,
        }
    }
}

/// Whether a target, where there is one, is below a number.
fn is_target(target: Option<u16>, end: usize) -> bool
    ensures { result ≡ list_all (is_below end) (option_to_list target) }
{
    match target {
        Some(target) => usize::from(target) < end,
        None => true,
    }
}
