//! Images worked out by hand, by the tables of the format.

use l6_image::{LoadFault, load, statement_words, text_of, words_of};
use std::test::Fail;

/// The image of ` (A,E,5)(A,PD)`, and its first version.
const FIVE: &[u8] = b"542651554722\n000000000002\n000000000007\n000020000000\n013077000000\n\
          127777777777\n000000000005\n312077000000\n127777777777\n000002000000\n";

const FIVE_ONE: &[u8] = b"542651554721\n000000000002\n000000000007\n000020000000\n013077000000\n\
          127777777777\n000000000005\n312077000000\n127777777777\n000002000000\n";

/// The image of a deck without cards.
const NOTHING: &[u8] = b"542651554722\n000000000001\n000000000001\n000002000000\n";

/// The image of `A (A,DO)`.
const CALL: &[u8] = b"542651554722\n000000000002\n000000000004\n000010000000\n264077000000\n\
          000000000000\n000002000000\n";

/// The image of `A (A,DO,A)`, and its first version.
const FAILING: &[u8] = b"542651554722\n000000000002\n000000000004\n000010000000\n264077000001\n\
          000000000000\n000002000000\n";

const FAILING_ONE: &[u8] = b"542651554721\n000000000002\n000000000004\n000010000000\n264077010000\n\
          000000000000\n000002000000\n";

#[test]
fn images_are_loaded_and_written_again(rt: HostRuntime) -> Result<(), Fail> {
    for (text, renewed) in [
        (FIVE, FIVE),
        (FIVE_ONE, FIVE),
        (NOTHING, NOTHING),
        (CALL, CALL),
        (FAILING, FAILING),
        (FAILING_ONE, FAILING),
    ] {
        let program = load(rt.alloc(), text)?;
        assert_eq!(rt; text_of(rt.alloc(), &program)?.as_slice(), renewed);
        assert_eq!(rt; words_of(rt.alloc(), &program)?.len(), text.len() / 13);
    }
    Ok(())
}

#[test]
fn statements_have_their_words(rt: HostRuntime) -> Result<(), Fail> {
    let program = load(rt.alloc(), FIVE)?;
    let words = statement_words(rt.alloc(), &program.statements()[0])?;
    let expected = [
        0o000020000000,
        0o013077000000,
        0o127777777777,
        0o000000000005,
        0o312077000000,
        0o127777777777,
    ];
    assert_eq!(rt; words.as_slice(), &expected[..]);
    Ok(())
}

#[test]
fn other_texts_are_refused(rt: HostRuntime) -> Result<(), Fail> {
    let rows: [(&[u8], LoadFault); 9] = [
        (b"", LoadFault::NotAnImage),
        (&FIVE[..FIVE.len() - 13], LoadFault::NotAnImage),
        (&FIVE[..FIVE.len() - 1], LoadFault::NotWords(10)),
        // A bit that must be zero, and a word too many.
        (
            b"542651554722\n000000000001\n000000000001\n000002400000\n",
            LoadFault::NotAnImage,
        ),
        (
            b"542651554722\n000000000001\n000000000001\n000002000000\n000000000000\n",
            LoadFault::NotAnImage,
        ),
        // A chain that begins with a digit, and a text with a comma.
        (
            b"542651554722\n000000000002\n000000000004\n000010000000\n312077000000\n\
          007777777777\n000002000000\n",
            LoadFault::NotAnImage,
        ),
        (
            b"542651554722\n000000000002\n000000000005\n000010000000\n336077000000\n\
          000000000001\n140000000000\n000002000000\n",
            LoadFault::NotAnImage,
        ),
        // A digit too few, and a carriage return.
        (b"000000000000\n00002000000\n\n", LoadFault::NotWords(2)),
        (b"542651554722\r\n", LoadFault::NotWords(1)),
    ];
    for (text, fault) in &rows {
        match load(rt.alloc(), *text) {
            Ok(_) => assert!(rt; false),
            Err(found) => assert_eq!(rt; found, *fault),
        }
    }
    Ok(())
}

/// Each text that differs from an image in one bit, and each that is cut short.
#[test]
fn altered_images_are_refused_or_others(rt: HostRuntime) -> Result<(), Fail> {
    for image in [FIVE, FIVE_ONE] {
        for index in 0..image.len() {
            assert!(rt; load(rt.alloc(), &image[..index]).is_err());
            for bit in [1, 2, 4, 8, 16, 32, 64, 128] {
                let mut altered = Vec::from_slice(rt.alloc(), image)?;
                altered[index] ^= bit;
                if let Ok(program) = load(rt.alloc(), &altered) {
                    // the version shows in the magic word alone, since no row of these has a label
                    let text = text_of(rt.alloc(), &program)?;
                    assert_eq!(rt; text.len(), altered.len());
                    assert!(rt; text.ends_with(&altered[13..]));
                    assert!(rt; altered.starts_with(&image[..13]));
                }
            }
        }
    }
    Ok(())
}
