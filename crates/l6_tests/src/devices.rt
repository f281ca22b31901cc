//! The calls that read from devices and write to devices, each to its end, on the first deck: its
//! printout, its listing and its image, worked out by hand.

use l6_run::{Ending, Host, Options, rewrite_image, run, run_image, write_image, write_listing};
use std::test::Fail;

/// A deck that sets A to 5 and prints it.
const DECK: &[u8] = b" (A,E,5)(A,PD)\n";

/// What it prints.
const PRINTOUT: &[u8] = b"5\n== DONE AFTER 6 STEPS\n";

/// Its image, and the same in the first version.
const IMAGE: &[u8] = b"542651554722\n000000000002\n000000000007\n000020000000\n013077000000\n\
          127777777777\n000000000005\n312077000000\n127777777777\n000002000000\n";

const IMAGE_ONE: &[u8] = b"542651554721\n000000000002\n000000000007\n000020000000\n013077000000\n\
          127777777777\n000000000005\n312077000000\n127777777777\n000002000000\n";

/// Its listing.
const LISTING: &[u8] = b"      1     0   (A,E,5)(A,PD)\
    \n               000020000000\
    \n               013077000000\
    \n               127777777777\
    \n               000000000005\
    \n               312077000000\
    \n               127777777777\
    \n            1   DONE\
    \n               000002000000\
    \nLABELS\n";

/// What a text is that is run from its reader.
#[derive(Clone, Copy)]
enum Form {
    Deck,
    Image,
}

#[test]
fn decks_and_images_are_run_from_their_readers(rt: HostRuntime) -> Result<(), Fail> {
    for (form, text) in [
        (Form::Deck, DECK),
        (Form::Image, IMAGE),
        (Form::Image, IMAGE_ONE),
    ] {
        let (mut head, mut input) = (Host::new(text), Host::new(&b""[..]));
        let mut writer = Host::new(Vec::new(rt.alloc()));
        let (alloc, options) = (rt.alloc(), Options::default());
        let answer = match form {
            Form::Deck => run(alloc, &mut head, &mut input, &mut writer, options),
            Form::Image => run_image(alloc, &mut head, &mut input, &mut writer, options),
        };
        assert_eq!(rt; answer, Ok(Ending::Done));
        assert_eq!(rt; writer.into_inner().as_slice(), PRINTOUT);
    }
    Ok(())
}

#[test]
fn an_image_and_a_listing_are_written(rt: HostRuntime) -> Result<(), Fail> {
    let mut writer = Host::new(Vec::new(rt.alloc()));
    assert_eq!(rt;
        write_image(rt.alloc(), &mut Host::new(DECK), &mut writer),
        Ok(())
    );
    assert_eq!(rt; writer.into_inner().as_slice(), IMAGE);
    let mut writer = Host::new(Vec::new(rt.alloc()));
    assert_eq!(rt;
        write_listing(rt.alloc(), &mut Host::new(DECK), &mut writer),
        Ok(())
    );
    assert_eq!(rt; writer.into_inner().as_slice(), LISTING);
    Ok(())
}

#[test]
fn images_are_rewritten(rt: HostRuntime) -> Result<(), Fail> {
    for text in [IMAGE, IMAGE_ONE] {
        let mut writer = Host::new(Vec::new(rt.alloc()));
        assert_eq!(rt;
            rewrite_image(rt.alloc(), &mut Host::new(text), &mut writer),
            Ok(())
        );
        assert_eq!(rt; writer.into_inner().as_slice(), IMAGE);
    }
    Ok(())
}
