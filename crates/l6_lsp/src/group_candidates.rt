//! Changes of a group that may make it an operation or a test.

use crate::candidates::{Candidate, concat};
use l6_check::{Finding, Reason};
use l6_group::{operation_of, test_of};
use std::alloc::{AllocError, Global};

/// How many elements of a group are looked at: the longest operation has five.
const MOST_ELEMENTS: usize = 6;

/// The signs that other languages compare and assign by.
const SIGNS: &[u8] = b"<>=!/";

/// A group on a card.
#[derive(Clone, Copy)]
struct Group<'a> {
    card: u32,
    /// The column of its (.
    from: usize,
    /// The column after its ).
    to: usize,
    /// What is between its parentheses.
    columns: &'a [u8],
}

/// Changes of a group, the likeliest first.
#[derive(Drop)]
struct Changes<'a> {
    alloc: Global,
    group: Group<'a>,
    list: Vec<Candidate>,
}

/// Adds the changes of the group that a finding is about.
pub(crate) fn add_for_group(
    alloc: Global,
    list: &mut Vec<Candidate>,
    finding: &Finding<'_>,
) -> Result<(), AllocError> {
    let Some(group) = group_of(finding) else {
        return Ok(());
    };
    let elements = elements_of(alloc, group.columns)?;
    let elements = elements.as_slice();
    let said = finding.said(alloc)?;
    let advised = word_in(said.advice.as_bytes());
    let mut changes = Changes {
        alloc,
        group,
        list: Vec::new(alloc),
    };
    changes.add_advised(elements, advised)?;
    changes.add_in_place_of_sign(advised)?;
    // (a group that only has a warning has a reading, so each of its elements may be meant)
    let has_reading = matches!(finding.reason, Reason::Warning(_));
    if !has_reading {
        changes.add_without_last(elements)?;
    }
    changes.add_reordered(elements)?;
    changes.add_joined(elements)?;
    changes.add_parted()?;
    if !has_reading {
        changes.add_with_comma()?;
    }
    list.append(&mut changes.list)
}

impl Changes<'_> {
    /// Adds the group with these elements.
    fn add(&mut self, elements: &[&[u8]]) -> Result<(), AllocError> {
        let mut columns = Vec::new(self.alloc);
        let mut is_first = true;
        for element in elements {
            if !is_first {
                columns.push(b',')?;
            }
            is_first = false;
            columns.extend_from_slice(element)?;
        }
        self.add_columns(columns.as_slice())
    }

    /// Adds the group with these columns between its parentheses, if they spell an operation or a test: anything else is
    /// no better.
    fn add_columns(&mut self, columns: &[u8]) -> Result<(), AllocError> {
        if operation_of(columns).is_some() || test_of(columns).is_some() {
            let text = concat(self.alloc, &[b"(", columns, b")"])?;
            let group = self.group;
            self.list
                .push(Candidate::write(group.card, group.from, group.to, text))?;
        }
        Ok(())
    }

    /// Adds the group with the word that the advice has in place of its own, as `(c,A,cd) adds cd to c`; and with H behind
    /// its word, or D before it.
    fn add_advised(
        &mut self,
        elements: &[&[u8]],
        advised: Option<&[u8]>,
    ) -> Result<(), AllocError> {
        let [first, word, ..] = elements else {
            return Ok(());
        };
        if let Some(advised) = advised {
            // (what begins with a word of two letters has its elements in another order)
            if first.len() < 2 || *first != advised {
                self.add_with_word(elements, advised)?;
            }
        }
        let of_text = concat(self.alloc, &[word, b"H"])?;
        self.add_with_word(elements, of_text.as_slice())?;
        if is_operation_and_more(self.alloc, elements)? {
            return Ok(());
        }
        let definition = concat(self.alloc, &[b"D", word])?;
        self.add_with_word(elements, definition.as_slice())
    }

    /// Adds the group with the word that the advice has in place of signs, as (A,L,5) for (A<5).
    fn add_in_place_of_sign(&mut self, advised: Option<&[u8]>) -> Result<(), AllocError> {
        let columns = self.group.columns;
        let first = columns.iter().position(|byte| SIGNS.contains(byte));
        let last = columns.iter().rposition(|byte| SIGNS.contains(byte));
        match (advised, first, last) {
            (Some(word), Some(first), Some(last)) => {
                let front = columns.get(..first).unwrap_or(b"");
                let signs = columns.get(first..last).unwrap_or(b"");
                let rest = columns.get(last + 1..).unwrap_or(b"");
                if signs.iter().all(|byte| SIGNS.contains(byte)) {
                    let written = concat(self.alloc, &[front, b",", word, b",", rest])?;
                    self.add_columns(written.as_slice())?;
                }
            }
            _ => {}
        }
        Ok(())
    }

    /// Adds the group with another second element.
    fn add_with_word(&mut self, elements: &[&[u8]], word: &[u8]) -> Result<(), AllocError> {
        match elements {
            [first, _, rest @ ..] => {
                let mut changed = vec![in self.alloc; *first, word]?;
                changed.extend_from_slice(rest)?;
                self.add(changed.as_slice())
            }
            _ => Ok(()),
        }
    }

    /// Adds the group with elements in another order: its word second, what is changed first, and a label in its place.
    fn add_reordered(&mut self, elements: &[&[u8]]) -> Result<(), AllocError> {
        match elements {
            [one, two, rest @ ..] => {
                let mut swapped = vec![in self.alloc; *two, *one]?;
                swapped.extend_from_slice(rest)?;
                self.add(swapped.as_slice())?;
            }
            _ => {}
        }
        match elements {
            [one, two, three] => self.add(&[*three, *two, *one]),
            [one, two, three, four] => self.add(&[*one, *two, *three, b"", *four]),
            [one, two, three, _, five] => self.add(&[*one, *two, *three, b"", *five]),
            _ => Ok(()),
        }
    }

    /// Adds the group with two elements side by side as one, which a comma parts.
    fn add_joined(&mut self, elements: &[&[u8]]) -> Result<(), AllocError> {
        for number in 1..elements.len() {
            let columns = without_comma(self.alloc, self.group.columns, number)?;
            self.add_columns(columns.as_slice())?;
        }
        Ok(())
    }

    /// Adds the group with commas where it has stops or blanks.
    fn add_parted(&mut self) -> Result<(), AllocError> {
        let mut columns = Vec::new(self.alloc);
        for byte in self.group.columns.trim_ascii() {
            columns.push(match byte {
                b'.' | b' ' | b';' | b':' => b',',
                other => *other,
            })?;
        }
        self.add_columns(columns.as_slice())
    }

    /// Adds the group without its last element, as (PL) for (PL,1): one of two or three, for a fourth or a fifth may stand in
    /// the place of another.
    fn add_without_last(&mut self, elements: &[&[u8]]) -> Result<(), AllocError> {
        match elements {
            [one, _] => self.add(&[*one]),
            [one, two, _] => self.add(&[*one, *two]),
            _ => Ok(()),
        }
    }

    /// Adds the group with one comma more, as (A,E,5) for (A,E5). The last place for it comes first, since the words of
    /// operations are short.
    fn add_with_comma(&mut self) -> Result<(), AllocError> {
        let columns = self.group.columns;
        let count = columns.len();
        for back in 1..count {
            let at = count - back;
            let (front, rest) = (&columns[..at], &columns[at..]);
            let written = concat(self.alloc, &[front, b",", rest])?;
            self.add_columns(written.as_slice())?;
        }
        Ok(())
    }
}

/// The group that a finding is about: its columns, or those round them.
fn group_of<'a>(finding: &Finding<'a>) -> Option<Group<'a>> {
    let line = finding.line;
    let front = line.get(..finding.span.from.saturating_add(1))?;
    let open = front.iter().rposition(|byte| *byte == b'(')?;
    let rest = line.get(open + 1..)?;
    let length = rest.iter().position(|byte| *byte == b')')?;
    Some(Group {
        card: finding.card,
        from: open,
        to: open + length + 2,
        columns: rest.get(..length)?,
    })
}

/// The elements of a group, without blanks round them.
fn elements_of<'a>(alloc: Global, columns: &'a [u8]) -> Result<Vec<&'a [u8]>, AllocError> {
    let mut list = Vec::new(alloc);
    let mut rest = columns;
    for _ in 0..MOST_ELEMENTS {
        match rest.iter().position(|byte| *byte == b',') {
            None => break,
            Some(at) => {
                list.push(rest.get(..at).unwrap_or(b"").trim_ascii())?;
                rest = rest.get(at + 1..).unwrap_or(b"");
            }
        }
    }
    list.push(rest.trim_ascii())?;
    Ok(list)
}

/// Whether the first three elements of four or more spell an operation: then its word names no field.
fn is_operation_and_more(alloc: Global, elements: &[&[u8]]) -> Result<bool, AllocError> {
    match elements {
        [one, two, three, _, ..] => {
            let front = concat(alloc, &[one, b",", two, b",", three])?;
            Ok(operation_of(front.as_slice()).is_some())
        }
        _ => Ok(false),
    }
}

/// The word of the first group in an advice, unless that is a test to be turned by NOT.
pub(crate) fn word_in(advice: &[u8]) -> Option<&[u8]> {
    let open = advice.iter().position(|byte| *byte == b'(')?;
    if advice.get(..open)?.ends_with(b"NOT ") {
        return None;
    }
    let rest = advice.get(open + 1..)?;
    let group = rest.get(..rest.iter().position(|byte| *byte == b')')?)?;
    let after = group.get(group.iter().position(|byte| *byte == b',')? + 1..)?;
    let word = match after.iter().position(|byte| *byte == b',') {
        None => after,
        Some(end) => after.get(..end)?,
    };
    // (Df stands for the definition of any field)
    if word.iter().all(|byte| byte.is_ascii_uppercase()) {
        Some(word)
    } else {
        None
    }
}

/// Columns without the comma of this number, from 1 on.
fn without_comma(alloc: Global, columns: &[u8], number: usize) -> Result<Vec<u8>, AllocError> {
    let mut text = Vec::new(alloc);
    let mut left = number;
    for byte in columns {
        if *byte == b',' {
            left = left.saturating_sub(1);
            if left == 0 {
                left = usize::MAX;
                continue;
            }
        }
        text.push(*byte)?;
    }
    Ok(text)
}
