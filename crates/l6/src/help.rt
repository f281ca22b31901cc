//! What `--help` says: how each command is called, what it does, and, after its options, an example
//! that can be pasted and the exit statuses.

/// What a command's help says.
#[derive(Clone, Copy, Debug)]
pub(crate) struct Help {
    /// How the command is called.
    pub(crate) usage: &'static str,
    /// What it does, in a line.
    pub(crate) about: &'static str,
    /// What follows its options.
    pub(crate) details: &'static str,
}

/// The help of the program.
pub(crate) const PROGRAM: Help = Help {
    usage: "l6 <COMMAND> [OPTIONS] < JOB",
    about: "Runs programs of L6, Bell Labs' Low-Level Linked List Language (Knowlton, 1966)",
    details: "\
Standard input is one job: a deck of cards and, after a line $INPUT, the input of its program.
Column 1 of a card is blank or begins a label; groups such as (A,E,5) follow. `load` and `renew`
take an image in place of the deck. `debug` takes commands after the deck, between a line
$COMMANDS and the line $INPUT. `trace` takes the calls of an allocator in place of all this.
`l6 run --help` describes `run`, and so on.

Examples:
  printf ' (A,E,5)(A,PD)\\n' | l6 run
  printf ' (A,E,5)(A,PD)\\n' | l6 asm | l6 load
  printf ' (A,E,5)(A,PD)\\n$COMMANDS\\nstep 2\\nshow\\n' | l6 debug

Exit status:
  0   the run ended by DONE, an image, a listing or answers were written, or the deck that was
      checked has no error
  1   the run ended by FAIL, or an answer in a trace is wrong, or its calls are missing
  2   the run trapped
  3   the run reached its limit of steps
  4   the job was refused: its deck, image or trace is faulty, or a part is too long
  5   memory ran out, or reading or writing failed
  64  the command line is wrong, or asks for help or for the version",
};

/// The help of `asm`.
pub(crate) const ASM: Help = Help {
    usage: "l6 asm < JOB",
    about: "Writes the image of a deck: its program as machine words",
    details: "\
An image has a machine word on each line, as twelve octal digits. `load` runs it. An input after
the deck, from a line $INPUT on, is ignored.

Example:
  printf ' (A,E,5)(A,PD)\\n' | l6 asm

Exit status: 0 the image was written, 4 the deck was refused, 5 memory ran out, or reading or
writing failed, 64 the command line is wrong, or asks for help",
};

/// The help of `list`.
pub(crate) const LIST: Help = Help {
    usage: "l6 list < JOB",
    about: "Writes the listing of a deck: its cards, machine words and labels",
    details: "\
The listing shows each card with its number, the number and the machine words of each statement,
and the labels. An input after the deck, from a line $INPUT on, is ignored.

Example:
  printf ' (A,E,5)(A,PD)\\n' | l6 list

Exit status: 0 the listing was written, 4 the deck was refused, 5 memory ran out, or reading or
writing failed, 64 the command line is wrong, or asks for help",
};

/// The help of `check`.
pub(crate) const CHECK: Help = Help {
    usage: "l6 check [--long] [--name FILE] < JOB",
    about: "Says what is wrong with a deck: card, column and why",
    details: "\
A line for each error and each warning begins with the numbers of its card and its column, and with
--name with that name before; a line that is indented has advice. With --long the card stands
between, with signs under its columns. At most 100 are shown, and the last line counts them all. An
input after the deck, from a line $INPUT on, is ignored.

Examples:
  printf ' (A,E,5(A,PD)\\n' | l6 check
  l6 check --name my.deck < my.deck

Exit status: 0 the deck has no error, 4 it has one, or is too long, 5 memory ran out, or reading or
writing failed, 64 the command line is wrong, or asks for help",
};

/// The help of `run`.
pub(crate) const RUN: Help = Help {
    usage: "l6 run [OPTIONS] < JOB",
    about: "Runs a deck, and writes what it prints and how it ends",
    details: "\
Standard input is a deck of cards and, after a line $INPUT, the input of its program. Column 1 of
a card is blank or begins a label; groups such as (A,E,5) follow.

Example:
  printf ' (A,IN,2)(A,PR,2)\\n$INPUT\\nhi\\n' | l6 run --steps 100

Exit status: 0 the run ended by DONE, 1 by FAIL, 2 by a trap, 3 at its limit of steps, 4 the job was
refused, 5 memory ran out, or reading or writing failed, 64 the command line is wrong, or asks for
help",
};

/// The help of `load`.
pub(crate) const LOAD: Help = Help {
    usage: "l6 load [OPTIONS] < JOB",
    about: "Runs an image, as `run` runs its deck",
    details: "\
Standard input is an image that `asm` wrote, of the current version or of the first one, and, after
a line $INPUT, the input of its program. The answer is what `run` answers to the deck.

Example:
  printf ' (A,E,5)(A,PD)\\n' | l6 asm | l6 load

Exit status: 0 the run ended by DONE, 1 by FAIL, 2 by a trap, 3 at its limit of steps, 4 the image was
refused, 5 memory ran out, or reading or writing failed, 64 the command line is wrong, or asks for
help",
};

/// The help of `renew`.
pub(crate) const RENEW: Help = Help {
    usage: "l6 renew < JOB",
    about: "Rewrites an image in the current version",
    details: "\
An image of the first version, which begins with the line 542651554721, becomes one of the version
that `asm` writes. An image of that version stays as it is. An input after the image is ignored.

Example:
  printf '542651554721\\n000000000001\\n000000000001\\n000002000000\\n' | l6 renew

Exit status: 0 the image was written, 4 the image was refused, 5 memory ran out, or reading or
writing failed, 64 the command line is wrong, or asks for help",
};

/// The help of `trace`.
pub(crate) const TRACE: Help = Help {
    usage: "l6 trace [OPTIONS] < TRACE",
    about: "Answers an allocator's trace, and finds the first answer that differs",
    details: "\
Standard input has a call on each line: get NAME WORDS, free NAME, lists, map, stats. Blank lines and
lines that begin with # are skipped. After a get, = PLACE or = none says what another allocator
answered, and after a free, = N how often it joined the piece. A last line end N says how many gets and
frees there are, so that a trace that was cut off is found.

Without --any-place the answers are to be those of the proved store, and the first that differs is
shown. With it the allocator may choose places by any rule: each answer is judged by where blocks may
be, and what is wrong is named with the lines of the blocks.

Examples:
  printf 'get a 5\\nget b 2048\\nfree a\\nlists\\n' | l6 trace --store 1
  printf 'get a 5 = 2040\\nget b 1 = 2039\\nend 2\\n' | l6 trace --any-place --units 1

Exit status: 0 the answers were written and none is wrong, 1 one is or calls are missing, 4 the trace
was refused, 5 memory ran out, or reading or writing failed, 64 the command line is wrong, or asks for
help",
};

/// The help of `debug`.
pub(crate) const DEBUG: Help = Help {
    usage: "l6 debug [OPTIONS] < JOB",
    about: "Shows the run of a deck, forward and back, as commands ask",
    details: "\
Standard input is a deck of cards and, after a line $COMMANDS, commands, one on a line: step N, back N,
go, break S, clear S, show, fields, block P, draw, store, out, quit. The input of the program follows
the commands, after a line $INPUT.

Example:
  printf ' (A,E,5)(A,PD)\\n$COMMANDS\\nstep 2\\nshow\\nback 1\\n' | l6 debug

Exit status: 0 the answers were written, 4 the job was refused, 5 memory ran out, or reading or
writing failed, 64 the command line is wrong, or asks for help",
};
