//! Decks with their faults, and the labels of a deck, worked out by hand.

use l6_asm::{AsmFault, assemble};
use std::test::Fail;

#[test]
fn decks_have_their_faults(rt: HostRuntime) -> Result<(), Fail> {
    let rows: [(&[u8], AsmFault); 18] = [
        (b"(A,E,5)\n", AsmFault::Form(1)),
        (b"+(A,E,1)\n", AsmFault::Form(1)),
        (b" IF (A,E,1)\n", AsmFault::Form(1)),
        (b" IF (A,E,1)\n*\n+\n \nX\n", AsmFault::Form(3)),
        (b" FOO\n+(A,E,1)\n", AsmFault::Form(2)),
        (b" IF\n+THEN\n", AsmFault::Form(2)),
        (b" IF (A,E,1) THEN L\n+(PL)\n", AsmFault::Form(2)),
        (b" IF (A,E,1)(A,E,1) THEN\n", AsmFault::Form(1)),
        (b" (A,EO,8)\n", AsmFault::Form(1)),
        (b" (A,IO,B)\n", AsmFault::Form(1)),
        (b" (A,DO,1,2)(A,DO,1)\n", AsmFault::Form(1)),
        (b"ABCDEFG\n", AsmFault::Form(1)),
        (b" (\x01,PH)\n", AsmFault::Form(1)),
        (b" (A,PD))\n", AsmFault::Form(1)),
        (
            b" L\n+\n+\n+\n+\n+\n+\n+\n+\n+\n+\n+\n+\n+\n+\n+\n+\n",
            AsmFault::Limit(17),
        ),
        (b" NO\nA\nB\na\n", AsmFault::TwiceLabelled(4)),
        (b" (A,E,1)\n*\n+(L,DO)\n", AsmFault::NoLabel(3)),
        (b" (PL)\n+ NO WAY\n", AsmFault::NoLabel(2)),
    ];
    for (deck, fault) in &rows {
        match assemble(rt.alloc(), *deck) {
            Ok(_) => assert!(rt; false),
            Err(found) => assert_eq!(rt; found, *fault),
        }
    }
    Ok(())
}

#[test]
fn labels_name_statements(rt: HostRuntime) -> Result<(), Fail> {
    let deck =
        b"LOOP (A,A,1)\n*\n+(END,DO,Loop)\n IFANY (A,E,1)(B,GO,17)\n+THEN LOOP\nend D O N E\n";
    let assembly = assemble(rt.alloc(), deck)?;
    assert_eq!(rt; assembly.program().statements().len(), 4);
    let rows: [(&[u8], u16); 2] = [(b"LOOP", 0), (b"END", 2)];
    assert_eq!(rt; assembly.labels().len(), rows.len());
    for ((label, statement), row) in assembly.labels().iter().zip(rows.iter()) {
        assert_eq!(rt; label.characters(), row.0);
        assert_eq!(rt; *statement, row.1);
    }
    Ok(())
}
