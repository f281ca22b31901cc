//! Programs that are made without a deck, and programs that read an input.

use l6_machine::Machine;
use l6_prog::{
    Chain, Comparison, Cond, Exit, MAX_STATEMENTS, Name, Op, Operand, PrintText, ProgFault,
    Program, Statement, Test,
};
use l6_run::{Host, Options, Part, Patience, RunFault, printout, run_deck};
use l6_steps::Limits;
use l6_store::ScanStore;
use l6_word::Word;
use std::alloc::{AllocError, Global};
use std::test::Fail;

/// The bug A.
fn bug() -> Result<Chain, Fail> {
    let name = Name::new(10).ok_or("no name")?;
    Ok(Chain::new(&[name]).ok_or("no chain")?)
}

/// A number as an operand.
fn number(value: u64) -> Operand {
    Operand::Number(Word::wrapping(value))
}

/// A test of the bug A.
fn test(comparison: Comparison, value: u64) -> Result<Test, Fail> {
    Ok(Test {
        comparison,
        chain: bug()?,
        operand: number(value),
    })
}

/// A statement without a condition.
fn statement(alloc: Global, operations: Vec<Op>, exit: Exit) -> Statement {
    Statement::new(Cond::Always, Vec::new(alloc), operations, exit)
}

/// The statement `(A,E,5)`, 61 times `(A,A,1)`, `(A,PD)`.
fn long_statement(alloc: Global) -> Result<Statement, Fail> {
    let mut operations = Vec::new(alloc);
    operations.push(Op::Set(bug()?, number(5)))?;
    for _ in 0..61 {
        operations.push(Op::Add(bug()?, number(1)))?;
    }
    operations.push(Op::PrintDecimal(bug()?))?;
    Ok(statement(alloc, operations, Exit::Next))
}

/// What the program of these statements, and the plain `DONE` after them, prints.
fn printed(alloc: Global, mut statements: Vec<Statement>) -> Result<Vec<u8>, Fail> {
    statements.push(Statement::plain_done(alloc))?;
    let program = Program::new(statements)?.duplicate(alloc)?;
    let limits = Limits {
        steps: 100,
        output: 99,
    };
    let store = ScanStore::new(alloc, 1)?;
    let mut machine = Machine::new(alloc, &program, &[], store, limits)?;
    machine.run();
    Ok(printout(alloc, &machine)?)
}

#[test]
fn programs_are_run(rt: HostRuntime) -> Result<(), Fail> {
    let alloc = rt.alloc();
    let statements = vec![in alloc; long_statement(alloc)?.duplicate(alloc)?]?;
    let text = printed(alloc, statements)?;
    assert_eq!(rt; text.as_slice(), b"66\n== DONE AFTER 67 STEPS\n".as_slice());

    // 0 prints a line and goes to 2, which goes back to 1, which fails.
    let line = vec![in alloc; Op::PrintLine]?;
    let statements = vec![in alloc;
        statement(alloc, line, Exit::Label(2)),
        statement(alloc, Vec::new(alloc), Exit::Fail),
        statement(alloc, Vec::new(alloc), Exit::Label(1)),
    ]?;
    let text = printed(alloc, statements)?;
    assert_eq!(rt; text.as_slice(), b"\n== FAIL AFTER 7 STEPS\n".as_slice());

    let statements = vec![in alloc; statement(alloc, Vec::new(alloc), Exit::Label(0))]?;
    let text = printed(alloc, statements)?;
    assert_eq!(rt; text.as_slice(), b"== LIMIT AFTER 100 STEPS\n".as_slice());

    let statements = vec![in alloc; statement(alloc, Vec::new(alloc), Exit::Done)]?;
    let text = printed(alloc, statements)?;
    assert_eq!(rt; text.as_slice(), b"== DONE AFTER 2 STEPS\n".as_slice());
    Ok(())
}

/// So many statements, and the plain `DONE` after them.
fn many(alloc: Global, count: usize) -> Result<Result<Program, ProgFault>, AllocError> {
    let mut statements = Vec::new(alloc);
    for _ in 0..count {
        statements.push(statement(alloc, Vec::new(alloc), Exit::Next))?;
    }
    statements.push(Statement::plain_done(alloc))?;
    Ok(Program::new(statements))
}

#[test]
fn programs_have_limits(rt: HostRuntime) -> Result<(), Fail> {
    let alloc = rt.alloc();
    assert_eq!(rt; Program::new(Vec::new(alloc)).err(), Some(ProgFault::Shape));
    assert_eq!(rt; many(alloc, MAX_STATEMENTS - 1)?.err(), None);
    assert_eq!(rt; many(alloc, MAX_STATEMENTS)?.err(), Some(ProgFault::Limit));
    for (count, fault) in [(63, None), (64, Some(ProgFault::Limit))] {
        let mut tests = Vec::new(alloc);
        let mut operations = Vec::new(alloc);
        for _ in 0..count {
            tests.push(test(Comparison::Equal, 0)?)?;
            operations.push(Op::PrintLine)?;
        }
        let tested = Statement::new(Cond::IfAll, tests, Vec::new(alloc), Exit::Next);
        let statements = vec![in alloc; tested, Statement::plain_done(alloc)]?;
        assert_eq!(rt; Program::new(statements).err(), fault);
        let operated = statement(alloc, operations, Exit::Next);
        let statements = vec![in alloc; operated, Statement::plain_done(alloc)]?;
        assert_eq!(rt; Program::new(statements).err(), fault);
    }
    Ok(())
}

#[test]
fn a_program_of_everything_is_copied(rt: HostRuntime) -> Result<(), Fail> {
    let alloc = rt.alloc();
    let field = Name::new(3).ok_or("no name")?;
    let text = PrintText::new(&[40, 41]).ok_or("no text")?;
    let operations = vec![in alloc;
        Op::Exchange(bug()?, bug()?),
        Op::Define(field, number(0), number(18), number(35)),
        Op::SaveDefinition(field),
        Op::Get(bug()?, number(2), Some(bug()?), Some(1)),
        Op::Free(bug()?, None),
        Op::Call(1, Some(0)),
        Op::PrintText(text),
    ]?;
    let tests = vec![in alloc; test(Comparison::Greater, 7)?]?;
    let everything = Statement::new(Cond::Not, tests, operations, Exit::Label(1));
    let statements = vec![in alloc; everything, Statement::plain_done(alloc)]?;
    let program = Program::new(statements)?.duplicate(alloc)?;
    assert_eq!(rt; program.statements().len(), 2);
    let copied = &program.statements()[0];
    assert_eq!(rt; copied.condition(), Cond::Not);
    assert_eq!(rt; copied.exit(), Exit::Label(1));
    assert_eq!(rt; copied.tests().len(), 1);
    assert_eq!(rt; copied.operations().len(), 7);
    assert!(rt; matches!(&copied.operations()[3], Op::Get(_, _, Some(_), Some(1))));
    Ok(())
}

#[test]
fn programs_read_their_input(rt: HostRuntime) -> Result<(), Fail> {
    let lines = b" (A,IN,3)(A,PR,2)(PL)\nL (B,IN,6,OUT)(C,A,6) L\nOUT (C,PD)(PL)(B,IN,1)(B,IN,1)\n";
    let rows: [(&[u8], &[u8], &[u8]); 6] = [
        (
            lines,
            b"ab\n\n",
            b"B \n156\n== TRAP 8 INPUT ENDED AT 2.4 AFTER 115 STEPS\n",
        ),
        // a byte without a code, a tab and a carriage return at the end of a line
        (
            b" (A,IN,5)(A,PR,5)\n",
            b"a\t{z\r\n",
            b"A ?Z \n== DONE AFTER 6 STEPS\n",
        ),
        // what is past the width of a line is nothing, and no line is an empty one
        (
            b" (A,IN,1,X)(A,PR,1)\nX (A,IN,1,Y)\nY (PL)\n",
            b"",
            b"\n== DONE AFTER 9 STEPS\n",
        ),
        (
            b" (B,E,13)\nL (A,IN,6)(B,S,1) NEXT\nNEXT IF (B,N,0) THEN L\n (A,IN,4)(A,PR,4)\n",
            b"12345678901234567890123456789012345678901234567890123456789012345678901234567890X\nEND\n",
            b"90EN\n== DONE AFTER 86 STEPS\n",
        ),
        (
            b" (hello  L6!,PH)\n",
            b"",
            b"HELLO  L6!\n== DONE AFTER 5 STEPS\n",
        ),
        (
            b" (A,PR,7)\n",
            b"",
            b"== TRAP 13 BAD COUNT AT 0.1 AFTER 1 STEPS\n",
        ),
    ];
    for (deck, input, text) in rows {
        let mut writer = Host::new(Vec::new(rt.alloc()));
        let result = run_deck(
            rt.alloc(),
            deck,
            input,
            &mut writer,
            Options::default(),
            &mut Patience::new(),
        );
        assert!(rt; result.is_ok());
        assert_eq!(rt; writer.into_inner().as_slice(), text);
    }
    for (size, fault) in [
        (1_048_576, None),
        (1_048_577, Some(RunFault::TooLong(Part::Input))),
    ] {
        let input = vec![in rt.alloc(); b'A'; size]?;
        let mut writer = Host::new(Vec::new(rt.alloc()));
        let result = run_deck(
            rt.alloc(),
            b" (PL)",
            input.as_slice(),
            &mut writer,
            Options::default(),
            &mut Patience::new(),
        );
        assert_eq!(rt; result.err(), fault);
    }
    Ok(())
}
