//! Where an action stands on its card, by the marks that are put below it.

/// The columns of an action on a card, counted from 1: the first one, and the one after its last.
#[derive(Clone, Copy, Debug, PartialEq, Eq)]
pub(crate) struct Marks {
    pub(crate) card: u64,
    pub(crate) first: u64,
    pub(crate) end: u64,
}

/// A card as it is shown: its number, and how many columns are in front of its own.
#[derive(Clone, Copy, Debug, PartialEq, Eq)]
struct Shown {
    card: u64,
    before: u64,
}

/// The first marks below the cards of a statement, where each card is shown after its number.
pub(crate) fn marks_in(text: &[u8]) -> Option<Marks> {
    let mut shown = Shown { card: 0, before: 0 };
    let mut line = Shown { card: 0, before: 0 };
    let mut column: u64 = 0;
    let mut first: Option<u64> = None;
    for byte in text {
        column = column.saturating_add(1);
        let is_mark = *byte == b'^' && line.before == 0;
        match first {
            None => {
                if is_mark {
                    first = Some(column.saturating_sub(shown.before));
                }
            }
            Some(first) => {
                if !is_mark {
                    let (card, end) = (shown.card, column.saturating_sub(shown.before));
                    return Some(Marks { card, first, end });
                }
            }
        }
        if *byte == b'\n' {
            shown = if line.before > 0 { line } else { shown };
            line = Shown { card: 0, before: 0 };
            column = 0;
        } else {
            line = after(line, *byte, column);
        }
    }
    None
}

/// What is known of a line after a further column: a number that a blank follows is that of a card.
fn after(line: Shown, byte: u8, column: u64) -> Shown {
    if line.before > 0 {
        return line;
    }
    if byte.is_ascii_digit() {
        let digit = u64::from(byte.saturating_sub(b'0'));
        let card = line.card.saturating_mul(10).saturating_add(digit);
        return Shown { card, before: 0 };
    }
    if line.card > 0 {
        let card = line.card;
        return Shown {
            card,
            before: column,
        };
    }
    line
}
