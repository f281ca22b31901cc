//! Decks with the parts of their statements and the spans of their groups, worked out by hand.

use l6_card::{Label, Parts, read_deck};
use l6_prog::{Cond, Exit, Op};
use std::test::Fail;

#[test]
fn groups_have_their_spans(rt: HostRuntime) -> Result<(), Fail> {
    let rows: [(&[u8], &[(u32, u32)]); 10] = [
        (b" (A,E,5)(A,PD)\n", &[(1, 7), (8, 6)]),
        (b" (A,E,1)\n+ (A,PD)\n", &[(1, 7), (11, 6)]),
        (b"* (PL)\n\n \n (PL)\n", &[(11, 4)]),
        (b" (PL)\r\n (PL)\r\n", &[(1, 4), (8, 4)]),
        (b"NEXT (PL)\nL2(PL)\n", &[(5, 4), (12, 4)]),
        (b"\t(PL)\t\t(PL)\n", &[(1, 4), (7, 4)]),
        (b" ( P L )( A,\tPD)\n", &[(1, 7), (8, 8)]),
        (b" IF (A,E,1) THEN (PL)\n", &[(4, 7), (17, 4)]),
        (
            b" IFALL (A,E,1)\n* (PL)\n+(A,G,2) THEN\n+(PL)\n (A,PD)(PL)",
            &[(7, 7), (23, 7), (37, 4), (43, 6), (49, 4)],
        ),
        (b" (PL)", &[(1, 4)]),
    ];
    for (deck, spans) in &rows {
        let mut found = Vec::new(rt.alloc());
        for statement in read_deck(rt.alloc(), *deck)?.into_statements() {
            let Parts {
                tests,
                operations,
                ..
            } = statement.into_parts();
            for test in &tests {
                found.push((test.span.offset, test.span.length))?;
            }
            for operation in &operations {
                found.push((operation.span.offset, operation.span.length))?;
            }
        }
        assert_eq!(rt; found.as_slice(), *spans);
    }
    Ok(())
}

#[test]
fn cards_lend_their_statements(rt: HostRuntime) -> Result<(), Fail> {
    let deck = b" IF (A,E,1)\n+THEN (B,PD) LOOP\nLOOP (L,PD)\n";
    let mut conditions = Vec::new(rt.alloc());
    let mut groups = Vec::new(rt.alloc());
    let mut printed = Vec::new(rt.alloc());
    let mut exits = Vec::new(rt.alloc());
    let cards = read_deck(rt.alloc(), deck)?;
    for statement in cards.statements() {
        conditions.push(statement.condition())?;
        for test in statement.tests() {
            groups.push((test.card, test.span.offset, test.span.length))?;
        }
        for operation in statement.operations() {
            groups.push((operation.card, operation.span.offset, operation.span.length))?;
            if let Op::PrintDecimal(chain) = &operation.reading {
                printed.push(chain.bug().number())?;
            }
        }
        if let Exit::Label(given) = statement.exit() {
            let label: &Label = &given.label;
            assert_eq!(rt; label.characters(), b"LOOP".as_slice());
            exits.push(given.card)?;
        }
    }
    assert_eq!(rt; conditions.as_slice(), [Cond::If, Cond::Always].as_slice());
    assert_eq!(rt;
        groups.as_slice(),
        [(1, 4, 7), (2, 18, 6), (3, 35, 6)].as_slice()
    );
    assert_eq!(rt; printed.as_slice(), [11, 21].as_slice());
    assert_eq!(rt; exits.as_slice(), [2].as_slice());
    Ok(())
}
