//! Listings: those that the format's description has, and some that an independent program made.

use l6_asm::{assemble, listing};
use std::test::Fail;

/// Decks, each with the lines of its listing.
const LISTINGS: [(&[u8], &[&[u8]]); 6] = [
    // A statement on one card.
    (
        b" (A,E,5)(A,PD)\n",
        &[
            b"      1     0   (A,E,5)(A,PD)",
            b"               000020000000",
            b"               013077000000",
            b"               127777777777",
            b"               000000000005",
            b"               312077000000",
            b"               127777777777",
            b"            1   DONE",
            b"               000002000000",
            b"LABELS",
        ],
    ),
    // A comment inside a statement, blank cards, tabs, carriage returns and columns past 72.
    (
        b"* note \x80\t\r\na (1,ph)\t \r\n*b\n+ done\n\n \nLOOP2 L O OP2                                                            (\n",
        &[
            b"      1        * NOTE ?",
            b"      2     0  A (1,PH)",
            b"      3        *B",
            b"      4        + DONE",
            b"               000012000000",
            b"               336077000000",
            b"               000000000001",
            b"               210000000000",
            b"      5",
            b"      6",
            b"      7     1  LOOP2 L O OP2",
            b"               000001000001",
            b"            2   DONE",
            b"               000002000000",
            b"LABELS",
            b"A          0",
            b"LOOP2      1",
        ],
    ),
    // No card.
    (
        b"",
        &[
            b"            0   DONE",
            b"               000002000000",
            b"LABELS",
        ],
    ),
    // Bytes without a code, and no line feed at the end.
    (
        b"*\xf1X\x82\xbe\x15\x9az*.\xd7\xdd\xceg\x12O#\xd3\xeb\n*\xb3\x1d\xba&\t[\xc0\x1eT\xd42\x11B?\x8c\x10OH76\xee\x0fB\nM  (F8,E,K8) M",
        &[
            b"      1        *?X????Z*.???G?O#??",
            b"      2        *???& [??T?2?B???OH76??B",
            b"      3     0  M  (F8,E,K8) M",
            b"               000011000000",
            b"               012477000000",
            b"               171077777777",
            b"               241077777777",
            b"            1   DONE",
            b"               000002000000",
            b"LABELS",
            b"M          0",
        ],
    ),
    // Labels that lead on, and a card with a label alone.
    (
        b"O5B   (OW,E,TW) YAT7Y\nVLHP  \t \nYAT7Y",
        &[
            b"      1     0  O5B   (OW,E,TW) YAT7Y",
            b"               000011000002",
            b"               012477000000",
            b"               304077777777",
            b"               354077777777",
            b"      2     1  VLHP",
            b"               000000000000",
            b"      3     2  YAT7Y",
            b"               000000000000",
            b"            3   DONE",
            b"               000002000000",
            b"LABELS",
            b"O5B        0",
            b"VLHP       1",
            b"YAT7Y      2",
        ],
    ),
    // Columns past 72, with a second carriage return and a sequence number, and last blanks.
    (
        b"NDQ  (X,IN,4)(AV,EO,20000000000)                                        \r\r\nK  (L,E,WJ)                                                             SEQ 0001\nMVC6  IFNALL (W,G,9)  THEN (X,PD)(WJYY,PR,5)  DONE  \t ",
        &[
            b"      1     0  NDQ  (X,IN,4)(AV,EO,20000000000)",
            b"               000020000000",
            b"               273077000000",
            b"               417777777777",
            b"               000000000004",
            b"               013077000000",
            b"               123777777777",
            b"               020000000000",
            b"      2     1  K  (L,E,WJ)",
            b"               000010000000",
            b"               012477000000",
            b"               257777777777",
            b"               402377777777",
            b"      3     2  MVC6  IFNALL (W,G,9)  THEN (X,PD)(WJYY,PR,5)  DONE",
            b"               601022000000",
            b"               033077000000",
            b"               407777777777",
            b"               000000000011",
            b"               312077000000",
            b"               417777777777",
            b"               303077000000",
            b"               402342427777",
            b"               000000000005",
            b"            3   DONE",
            b"               000002000000",
            b"LABELS",
            b"NDQ        0",
            b"K          1",
            b"MVC6       2",
        ],
    ),
];

#[test]
fn decks_have_their_listings(rt: HostRuntime) -> Result<(), Fail> {
    for (deck, lines) in &LISTINGS {
        let assembly = assemble(rt.alloc(), *deck)?;
        let mut expected = Vec::new(rt.alloc());
        for line in *lines {
            expected.extend_from_slice(*line)?;
            expected.push(b'\n')?;
        }
        let text = listing(rt.alloc(), &assembly, *deck)?;
        assert_eq!(rt; text.as_slice(), expected.as_slice());
    }
    Ok(())
}
