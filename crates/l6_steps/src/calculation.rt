//! Calculations: what field operations make of two numbers.

ghost use Rattle.std.specs.Prelude.{◌≡◌, ℕ, ◌≤◌};
ghost use Rattle.l6_word.specs.Numerals.{word_bits};
ghost use Rattle.l6_steps.specs.Calculation.{calculated};
ghost use Rattle.l6_steps.specs.inner.Calculation.{lowest_bits};

use crate::trap::Trap;
use l6_word::Word;

/// What a field operation makes of the content where its chain leads and of its operand's value.
#[derive(Clone, Copy, Debug, PartialEq, Eq)]
pub enum Calculation {
    /// The value alone.
    Set,
    /// The sum.
    Add,
    /// The content less the value.
    Subtract,
    /// The product.
    Multiply,
    /// The quotient of the content by the value.
    Divide,
    /// The remainder of the content by the value.
    Remainder,
    /// The bits that are one in both.
    And,
    /// The bits that are one in either.
    Or,
    /// The bits that are one in just one of them.
    ExclusiveOr,
    /// The value with each bit inverted.
    Complement,
    /// The content, shifted left by as many bits as the value says.
    ShiftLeft,
    /// The content, shifted right by as many bits as the value says.
    ShiftRight,
}

impl Calculation {
    /// The number to assign, of which a locus of any width keeps as many of the lowest bits as it
    /// has.
    ///
    /// # Errors
    ///
    /// The trap `ZeroDivisor`, where it would divide by 0.
    pub fn apply(self, content: Word, value: Word) -> Result<u64, Trap>
        ensures { (width : ℕ) → width ≤ word_bits →
            lowest_bits width result
            ≡ lowest_bits width (calculated self width content value) }
    {
        let (content, value) = (content.get(), value.get());
        let number = match self {
            Calculation::Set => value,
            Calculation::Add => content + value,
            Calculation::Subtract => content.wrapping_sub(value),
            Calculation::Multiply => content.wrapping_mul(value),
            Calculation::Divide => content.checked_div(value).ok_or(Trap::ZeroDivisor)?,
            Calculation::Remainder => content.checked_rem(value).ok_or(Trap::ZeroDivisor)?,
            Calculation::And => content & value,
            Calculation::Or => content | value,
            Calculation::ExclusiveOr => content ^ value,
            Calculation::Complement => !value,
            Calculation::ShiftLeft if value >= u64::from(u64::BITS) => 0,
            Calculation::ShiftLeft => content << value,
            Calculation::ShiftRight if value >= u64::from(Word::BITS) => 0,
            Calculation::ShiftRight => content >> value,
        };
        Ok(number)
    }
}
