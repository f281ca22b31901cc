//! What operations, tests and words of cards do, in words.

use l6_group::Label;
use l6_prog::{Comparison, Op};

/// What is written on a card, and what it does: c and c2 are chains, cd is a chain or a number, f is a field, L
/// and L2 are labels.
#[derive(Clone, Copy, Debug)]
pub(crate) struct Meaning {
    /// The word that tells it.
    pub(crate) word: &'static str,
    /// How it is written whole.
    pub(crate) form: &'static str,
    /// What it does.
    pub(crate) sentence: &'static str,
}

const SET: Meaning = Meaning {
    word: "E",
    form: "(c,E,cd)",
    sentence: "c becomes the operand.",
};

const ADD: Meaning = Meaning {
    word: "A",
    form: "(c,A,cd)",
    sentence: "c becomes the sum of its content and the operand.",
};

const SUBTRACT: Meaning = Meaning {
    word: "S",
    form: "(c,S,cd)",
    sentence: "c becomes its content less the operand.",
};

const MULTIPLY: Meaning = Meaning {
    word: "M",
    form: "(c,M,cd)",
    sentence: "c becomes the product of its content and the operand.",
};

const DIVIDE: Meaning = Meaning {
    word: "V",
    form: "(c,V,cd)",
    sentence: "c becomes the quotient of its content by the operand.",
};

const REMAINDER: Meaning = Meaning {
    word: "Y",
    form: "(c,Y,cd)",
    sentence: "c becomes the remainder of its content by the operand.",
};

const AND: Meaning = Meaning {
    word: "N",
    form: "(c,N,cd)",
    sentence: "c becomes its content and the operand, bit by bit.",
};

const OR: Meaning = Meaning {
    word: "O",
    form: "(c,O,cd)",
    sentence: "c becomes its content or the operand, bit by bit.",
};

const EXCLUSIVE_OR: Meaning = Meaning {
    word: "X",
    form: "(c,X,cd)",
    sentence: "c becomes its content exclusive-or the operand, bit by bit.",
};

const COMPLEMENT: Meaning = Meaning {
    word: "C",
    form: "(c,C,cd)",
    sentence: "c becomes the operand with each bit turned.",
};

const SHIFT_LEFT: Meaning = Meaning {
    word: "L",
    form: "(c,L,cd)",
    sentence: "c becomes its content, shifted left by as many bits as the operand says.",
};

const SHIFT_RIGHT: Meaning = Meaning {
    word: "R",
    form: "(c,R,cd)",
    sentence: "c becomes its content, shifted right by as many bits as the operand says.",
};

const EXCHANGE: Meaning = Meaning {
    word: "I",
    form: "(c,I,c2)",
    sentence: "c and c2 exchange their contents.",
};

const DEFINE: Meaning = Meaning {
    word: "D",
    form: "(cd,Df,cd,cd)",
    sentence: "Defines the field f by its word, its first bit and its last bit, in this order.",
};

const SAVE_CONTENT: Meaning = Meaning {
    word: "FC",
    form: "(S,FC,c)",
    sentence: "Saves the content of c on the pushdown of contents.",
};

const RESTORE_CONTENT: Meaning = Meaning {
    word: "FC",
    form: "(R,FC,c)",
    sentence: "c becomes the content that was saved last, which leaves the pushdown.",
};

const SAVE_DEFINITION: Meaning = Meaning {
    word: "FD",
    form: "(S,FD,f)",
    sentence: "Saves the definition of the field f, or that it has none, on the pushdown of definitions.",
};

const RESTORE_DEFINITION: Meaning = Meaning {
    word: "FD",
    form: "(R,FD,f)",
    sentence: "f gets the definition that was saved last, which leaves the pushdown.",
};

const GET: Meaning = Meaning {
    word: "GT",
    form: "(c,GT,cd), (c,GT,cd,c2), (c,GT,cd,c2,L) or (c,GT,cd,,L)",
    sentence: "Gets a block of zeros that has at least as many words as the operand says. c becomes its place, and c2, if given, the old content of c. Where no block can be had, the run goes to L.",
};

const DUPLICATE: Meaning = Meaning {
    word: "DP",
    form: "(c,DP,cd) or (c,DP,cd,,L)",
    sentence: "Gets a copy of the block at the operand, and c becomes its place. Where no block can be had, the run goes to L.",
};

const FREE: Meaning = Meaning {
    word: "FR",
    form: "(c,FR) or (c,FR,cd)",
    sentence: "Frees the block at the content of c. Then c becomes the operand, or 0 without one, unless c lay in that block.",
};

const CALL: Meaning = Meaning {
    word: "DO",
    form: "(L,DO) or (L,DO,L2)",
    sentence: "Calls the statement L. After its DONE the run goes on after the call, and after its FAIL at the fail label L2.",
};

const INPUT: Meaning = Meaning {
    word: "IN",
    form: "(c,IN,cd) or (c,IN,cd,L)",
    sentence: "Takes as many characters of the input as the operand says, and c becomes the number that they stand for. If the input has too few left, the run goes to L.",
};

const PRINT_CHARACTERS: Meaning = Meaning {
    word: "PR",
    form: "(c,PR,cd)",
    sentence: "Prints the last characters that the content of c stands for, as many as the operand says.",
};

const PRINT_DECIMAL: Meaning = Meaning {
    word: "PD",
    form: "(c,PD)",
    sentence: "Prints the content of c in decimal, without leading zeros.",
};

const PRINT_OCTAL: Meaning = Meaning {
    word: "PO",
    form: "(c,PO)",
    sentence: "Prints the content of c as twelve octal digits.",
};

const PRINT_TEXT: Meaning = Meaning {
    word: "PH",
    form: "(text,PH)",
    sentence: "Prints the text.",
};

pub(crate) const PRINT_LINE: Meaning = Meaning {
    word: "PL",
    form: "(PL)",
    sentence: "Prints a line feed.",
};

const EQUAL: Meaning = Meaning {
    word: "E",
    form: "(c,E,cd)",
    sentence: "Holds if the content of c is the operand.",
};

const NOT_EQUAL: Meaning = Meaning {
    word: "N",
    form: "(c,N,cd)",
    sentence: "Holds if the content of c is not the operand.",
};

const GREATER: Meaning = Meaning {
    word: "G",
    form: "(c,G,cd)",
    sentence: "Holds if the content of c is greater than the operand.",
};

const LESS: Meaning = Meaning {
    word: "L",
    form: "(c,L,cd)",
    sentence: "Holds if the content of c is less than the operand.",
};

const ALL_ONES: Meaning = Meaning {
    word: "O",
    form: "(c,O,cd)",
    sentence: "Holds if each bit that is one in the operand is one in the content of c.",
};

const ALL_ZEROS: Meaning = Meaning {
    word: "Z",
    form: "(c,Z,cd)",
    sentence: "Holds if each bit that is one in the operand is zero in the content of c.",
};

/// Those of the words that stand outside of groups.
pub(crate) const WORDS: [Meaning; 9] = [
    Meaning {
        word: "IF",
        form: "IF test THEN",
        sentence: "The rest is done if the test holds.",
    },
    Meaning {
        word: "NOT",
        form: "NOT test THEN",
        sentence: "The rest is done if the test does not hold.",
    },
    Meaning {
        word: "IFALL",
        form: "IFALL tests THEN",
        sentence: "The rest is done if all tests hold.",
    },
    Meaning {
        word: "IFANY",
        form: "IFANY tests THEN",
        sentence: "The rest is done if some test holds.",
    },
    Meaning {
        word: "IFNONE",
        form: "IFNONE tests THEN",
        sentence: "The rest is done if no test holds.",
    },
    Meaning {
        word: "IFNALL",
        form: "IFNALL tests THEN",
        sentence: "The rest is done if not all tests hold.",
    },
    Meaning {
        word: "THEN",
        form: "THEN operations exit",
        sentence: "What follows is done if the condition is true.",
    },
    Meaning {
        word: "DONE",
        form: "DONE",
        sentence: "The exit goes on after the latest call; without a call it ends the run.",
    },
    Meaning {
        word: "FAIL",
        form: "FAIL",
        sentence: "The exit goes to the fail label of the latest call; without a call it ends the run.",
    },
];

/// Those of the operations.
pub(crate) const OPERATIONS: [Meaning; 28] = [
    SET,
    ADD,
    SUBTRACT,
    MULTIPLY,
    DIVIDE,
    REMAINDER,
    AND,
    OR,
    EXCLUSIVE_OR,
    COMPLEMENT,
    SHIFT_LEFT,
    SHIFT_RIGHT,
    EXCHANGE,
    DEFINE,
    SAVE_CONTENT,
    RESTORE_CONTENT,
    SAVE_DEFINITION,
    RESTORE_DEFINITION,
    GET,
    DUPLICATE,
    FREE,
    CALL,
    INPUT,
    PRINT_CHARACTERS,
    PRINT_DECIMAL,
    PRINT_OCTAL,
    PRINT_TEXT,
    PRINT_LINE,
];

/// Those of the tests.
pub(crate) const TESTS: [Meaning; 6] = [EQUAL, NOT_EQUAL, GREATER, LESS, ALL_ONES, ALL_ZEROS];

/// What an operation does.
pub(crate) fn meaning_of(operation: &Op<Label>) -> Meaning {
    match operation {
        Op::Set(..) => SET,
        Op::Add(..) => ADD,
        Op::Subtract(..) => SUBTRACT,
        Op::Multiply(..) => MULTIPLY,
        Op::Divide(..) => DIVIDE,
        Op::Remainder(..) => REMAINDER,
        Op::And(..) => AND,
        Op::Or(..) => OR,
        Op::ExclusiveOr(..) => EXCLUSIVE_OR,
        Op::Complement(..) => COMPLEMENT,
        Op::ShiftLeft(..) => SHIFT_LEFT,
        Op::ShiftRight(..) => SHIFT_RIGHT,
        Op::Exchange(..) => EXCHANGE,
        Op::Define(..) => DEFINE,
        Op::SaveContent(..) => SAVE_CONTENT,
        Op::RestoreContent(..) => RESTORE_CONTENT,
        Op::SaveDefinition(..) => SAVE_DEFINITION,
        Op::RestoreDefinition(..) => RESTORE_DEFINITION,
        Op::Get(..) => GET,
        Op::Duplicate(..) => DUPLICATE,
        Op::Free(..) => FREE,
        Op::Call(..) => CALL,
        Op::Input(..) => INPUT,
        Op::PrintCharacters(..) => PRINT_CHARACTERS,
        Op::PrintDecimal(..) => PRINT_DECIMAL,
        Op::PrintOctal(..) => PRINT_OCTAL,
        Op::PrintText(..) => PRINT_TEXT,
        Op::PrintLine => PRINT_LINE,
    }
}

/// When a test holds.
pub(crate) fn test_meaning(comparison: Comparison) -> Meaning {
    match comparison {
        Comparison::Equal => EQUAL,
        Comparison::NotEqual => NOT_EQUAL,
        Comparison::Greater => GREATER,
        Comparison::Less => LESS,
        Comparison::AllOnes => ALL_ONES,
        Comparison::AllZeros => ALL_ZEROS,
    }
}
