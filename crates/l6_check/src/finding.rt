//! What is found on a card.

ghost use Rattle.std.specs.Prelude.{◌≡◌, ◌≤◌};
ghost use Rattle.l6_check.specs.Faults as spec;
ghost use Rattle.l6_check.specs.Listed.{severity_of};
ghost use Rattle.l6_check.specs.OnCard.{IsOnCard};

use crate::reason::Reason;
use crate::scan::{after_last, without_blanks};
use l6_word::split_once;

/// How many columns of a card count.
pub(crate) const WIDTH: usize = 72;

/// How bad a finding is.
#[derive(Clone, Copy, Debug, PartialEq, Eq)]
pub enum Severity {
    /// The deck spells no program.
    Error,
    /// The deck may spell a program, but perhaps not the one that was meant.
    Warning,
}

/// Columns of a card, counted from 0.
#[derive(Clone, Copy, Debug, PartialEq, Eq)]
pub struct Span {
    /// The first one.
    pub from: usize,
    /// The one after the last.
    pub to: usize,
}

impl Span {
    /// All columns of a card that count.
    #[tactic(auto, unfolding(l6_card::specs::Numerals::card_width))]
    pub(crate) fn whole() -> Self
        ensures { IsOnCard result }
    {
        Span { from: 0, to: WIDTH }
    }

    /// The columns from one to before another, as far as they are on a card, and at least one.
    #[tactic(auto, unfolding(l6_card::specs::Numerals::card_width))]
    pub(crate) fn on_card(from: usize, to: usize) -> Self
        ensures place { IsOnCard result }
        ensures value { result ≡ spec.on_card from to }
    {
        let from = from.min(WIDTH - 1);
        Span {
            from,
            to: to.min(WIDTH).max(from + 1),
        }
    }

    /// So many columns of what is inside these, which are a group's, after so many: as far as they are
    /// among these, and at least one.
    pub(crate) fn part(self, start: usize, length: usize) -> Self
        requires { IsOnCard self }
        ensures place { IsOnCard result }
        ensures part { spec.ArePartOf self result }
    {
        let from = self.from.saturating_add(1).saturating_add(start);
        let from = from.min(self.to - 1);
        Span {
            from,
            to: from.saturating_add(length).min(self.to).max(from + 1),
        }
    }
}

/// What is found on a card.
#[derive(Clone, Copy, Debug)]
pub struct Finding<'a> {
    /// The card's number, from 1 on.
    pub card: u32,
    /// The columns that it is about.
    pub span: Span,
    /// What these columns have.
    pub text: &'a [u8],
    /// The whole line of the card.
    pub line: &'a [u8],
    /// What is wrong there.
    pub reason: Reason,
}

impl<'a> Finding<'a> {
    /// What is on its card before these columns.
    pub(crate) fn before(&self) -> &'a [u8] {
        &self.line[..self.span.from.min(self.line.len())]
    }

    /// What is on its card from these columns on.
    pub(crate) fn rest(&self) -> &'a [u8] {
        &self.line[self.span.from.min(self.line.len())..]
    }

    /// What is on its card after these columns, without blanks at its front.
    pub(crate) fn following(&self) -> &'a [u8] {
        without_blanks(&self.line[self.span.to.min(self.line.len())..])
    }

    /// Whether these columns are between the parentheses of a group, all of them.
    pub(crate) fn is_whole_group(&self) -> bool {
        self.before().last() == Some(&b'(') && self.following().first() == Some(&b')')
    }

    /// The columns of the group that these columns are in, between its parentheses.
    pub(crate) fn group(&self) -> &'a [u8] {
        let front = self.before();
        let start = front.len().saturating_sub(after_last(front, b'(').len());
        let rest = &self.line[start.min(self.line.len())..];
        match split_once(rest, b')') {
            None => rest,
            Some((group, _)) => group,
        }
    }

    /// How many elements of that group are before these columns.
    pub(crate) fn element_number(&self) -> usize {
        after_last(self.before(), b'(')
            .iter()
            .filter(|byte| **byte == b',')
            .count()
    }

    /// How bad it is.
    pub fn severity(&self) -> Severity
        ensures { result ≡ severity_of self.now.reason }
    {
        match self.reason {
            Reason::Warning(_) => Severity::Warning,
            _ => Severity::Error,
        }
    }
}
