//! Words that people bring from other languages, and what to write in their place.

ghost use Rattle.std.specs.Prelude.{◌≡◌};
ghost use Rattle.l6_check.specs.Slips as spec;

/// How many characters of a word are looked at for advice.
pub(crate) const MAX_ADVISED: usize = 8;

/// A row of a table of words.
macro_rules! advised {
    ($characters:expr; $($($word:literal)|+ => $advice:literal,)+) => {
        match $characters {
            $($($word)|+ => $advice,)+
            _ => "",
        }
    };
}

/// What to write in place of an operation that is spelled so, if that is known.
pub(crate) fn operation_advice(characters: &[u8]) -> &'static str {
    advised! {
        characters;
        b"EQ" | b"SET" | b"LET" | b"MOVE" | b"MOV" | b"LOAD" | b"STORE" | b"=" | b":=" | b"<-" | b"IS" =>
            "(c,E,cd) makes c equal to cd",
        b"ADD" | b"PLUS" | b"INC" | b"INCR" | b"+" | b"+=" => "(c,A,cd) adds cd to c",
        b"++" => "(c,A,1) adds 1 to c",
        b"SUB" | b"MINUS" | b"DEC" | b"DECR" | b"-" | b"-=" => "(c,S,cd) subtracts cd from c",
        b"--" => "(c,S,1) subtracts 1 from c",
        b"MUL" | b"MULT" | b"TIMES" | b"*" | b"*=" => "(c,M,cd) multiplies c by cd",
        b"DIV" | b"D" | b"/" | b"/=" | b"//" => "(c,V,cd) divides c by cd",
        b"MOD" | b"REM" | b"%" | b"%=" => "(c,Y,cd) makes c the remainder of c by cd",
        b"AND" | b"&" | b"&=" => "(c,N,cd) is the operation AND",
        b"OR" | b"|" | b"|=" => "(c,O,cd) is the operation OR",
        b"XOR" | b"EOR" | b"^" | b"^=" => "(c,X,cd) is the operation exclusive OR",
        b"NOT" | b"COM" | b"NEG" | b"~" => "(c,C,cd) makes c the complement of cd",
        b"SHL" | b"SL" | b"LSL" | b"<<" => "(c,L,cd) shifts c to the left",
        b"SHR" | b"SR" | b"LSR" | b">>" => "(c,R,cd) shifts c to the right",
        b"PRINT" | b"P" | b"WRITE" | b"OUT" | b"PUT" | b"SAY" | b"DISPLAY" | b"PRINTF" | b"PUTS" | b"ECHO" =>
            "(c,PD) prints a number in decimal, (c,PO) in octal, (text,PH) a text",
        b"NL" | b"CR" | b"LF" | b"NEWLINE" => "(PL) ends a line",
        b"READ" | b"INPUT" | b"GETC" | b"GETCHAR" | b"SCANF" => "(c,IN,cd) takes cd characters of the input",
        b"GOTO" | b"GO" | b"JMP" | b"JUMP" | b"BR" =>
            "an exit is the label alone, after the groups and outside of them",
        b"CALL" | b"JSR" | b"GOSUB" | b"PERFORM" => "(L,DO) calls the statement L",
        b"RET" | b"RETURN" | b"RTS" => "the exit DONE returns from a call",
        b"STOP" | b"END" | b"HALT" | b"EXIT" | b"DONE" | b"FAIL" =>
            "an exit is a word after the groups and outside of them",
        b"SWAP" | b"XCHG" | b"EX" => "(c,I,c) exchanges two contents",
        b"NEW" | b"ALLOC" | b"MALLOC" | b"GET" => "(c,GT,cd) gets a block of cd words",
        b"FREE" | b"DEL" | b"DELETE" => "(c,FR) frees the block at c",
        b"COPY" | b"DUP" => "(c,DP,cd) gets a copy of the block at cd",
        b"PUSH" | b"SAVE" => "(S,FC,c) saves the content of c",
        b"POP" | b"PULL" | b"RESTORE" => "(R,FC,c) restores the content of c",
        b"DEF" | b"DEFINE" | b"FIELD" => "(cd,Df,cd,cd) defines the field f",
        b"CMP" | b"TEST" => "a test stands behind a condition: IF (A,E,5) THEN L",
        b"G" | b"Z" => "this is a test: IF or another condition goes before it, and THEN after it",
    }
}

/// What to write in place of a test that is spelled so, if that is known.
pub(crate) fn test_advice(characters: &[u8]) -> &'static str
    ensures { result.now ≡ spec.test_slip characters.now }
{
    match characters {
        b"EQ" | b"=" | b"==" | b"IS" => "(c,E,cd) asks whether c is cd",
        b"NE" | b"NEQ" | b"!=" | b"<>" | b"/=" | b"NOT" => "(c,N,cd) asks whether c is not cd",
        characters => order_advice(characters),
    }
}

/// The same of a test of which number is greater.
fn order_advice(characters: &[u8]) -> &'static str
    ensures { result.now ≡ spec.order_slip characters.now }
{
    match characters {
        b"GR" | b">" => "(c,G,cd) asks whether c is greater than cd",
        b"LS" | b"LT" | b"<" => "(c,L,cd) asks whether c is less than cd",
        characters => bound_advice(characters),
    }
}

/// The same of a test of which number is not greater.
fn bound_advice(characters: &[u8]) -> &'static str
    ensures { result.now ≡ spec.bound_slip characters.now }
{
    match characters {
        b"GE" | b">=" | b"=>" => "NOT (c,L,cd) asks whether c is not less than cd",
        b"LE" | b"<=" | b"=<" => "NOT (c,G,cd) asks whether c is not greater than cd",
        _ => "",
    }
}

/// The same of a test between points, as Fortran has them.
pub(crate) fn pointed_advice(characters: &[u8]) -> &'static str
    ensures { result.now ≡ spec.pointed_slip characters.now }
{
    match characters {
        b".EQ." => "(c,E,cd) asks whether c is cd",
        b".NE." => "(c,N,cd) asks whether c is not cd",
        b".GT." => "(c,G,cd) asks whether c is greater than cd",
        b".LT." => "(c,L,cd) asks whether c is less than cd",
        b".GE." => "NOT (c,L,cd) asks whether c is not less than cd",
        b".LE." => "NOT (c,G,cd) asks whether c is not greater than cd",
        _ => "",
    }
}

/// What to write in place of a condition that is spelled so, if that is known.
pub(crate) fn condition_word_advice(characters: &[u8]) -> &'static str {
    advised! {
        characters;
        b"DONE" | b"FAIL" => "an exit stands after the groups: (A,PD) DONE",
        b"IFNOT" | b"UNLESS" => "NOT alone is the condition: NOT (A,E,0) THEN DONE",
        b"IFAND" | b"AND" | b"&&" => "IFALL has several tests, one after the other; operations stand side by side",
        b"IFOR" | b"OR" | b"||" => "IFANY has several tests, one after the other; operations stand side by side",
        b"WHILE" | b"UNTIL" | b"FOR" | b"REPEAT" =>
            "there are no loops: an exit to a label before it repeats a statement",
        b"ELSE" | b"ELSEIF" | b"ELIF" | b"ELSIF" =>
            "there is no ELSE: the next statement follows where a test does not hold",
        b"THEN" => "a condition and its tests come before THEN: IF (A,E,5) THEN (A,PD)",
        b"GOTO" => "there is no GOTO: an exit is the label alone, after the groups",
        b"CALL" | b"DO" => "(L,DO) calls the statement L",
        b"+" => "+ stands in column 1, where it continues a statement",
    }
}

/// What to write in place of an exit to a label that is spelled so, if that is known.
pub(crate) fn exit_word_advice(characters: &[u8]) -> &'static str {
    advised! {
        characters;
        b"RETURN" | b"RET" | b"RTS" => "the exit DONE returns from a call",
        b"STOP" | b"END" | b"HALT" | b"EXIT" | b"QUIT" => "the exit DONE ends a run",
        b"ELSE" | b"ENDIF" | b"FI" => "there is no such word: a condition holds for its own statement alone",
        b"NEXT" | b"SKIP" | b"NOP" | b"PASS" => "without an exit the next statement follows",
        b"BREAK" => "an exit to a label leaves a loop",
    }
}

/// What to write in place of a statement of another language that begins with this word, if that is known.
pub(crate) fn statement_word_advice(characters: &[u8]) -> &'static str {
    advised! {
        characters;
        b"GOTO" | b"GO" | b"JMP" | b"JUMP" | b"BR" | b"BRA" => "there is no GOTO: an exit is the label alone",
        b"JZ" | b"JNZ" | b"JE" | b"JNE" | b"BEQ" | b"BNE" | b"BZ" | b"BNZ" =>
            "an exit on a condition is IF (A,E,0) THEN L",
        b"FOR" | b"WHILE" | b"UNTIL" | b"REPEAT" | b"WEND" | b"NEXT" =>
            "there are no loops: an exit to a label before it repeats a statement",
        b"DO" => "(L,DO) calls the statement L; an exit to a label before it repeats a statement",
        b"REM" | b"NOTE" => "a comment has a card of its own, with * in column 1",
        b"DIM" | b"INT" | b"INTEGER" | b"VAR" | b"REAL" | b"CHAR" =>
            "nothing is declared: each bug is there, and a field is defined by a group: (0,DN,18,35)",
        b"RETURN" | b"RET" | b"RTS" => "the exit DONE returns from a call",
        b"STOP" | b"END" | b"HALT" | b"EXIT" | b"QUIT" => "the exit DONE ends a run",
    }
}
