//! The texts of faults.

use l6_asm::AsmFault;
use l6_image::LoadFault;
use l6_machine::MachineFault;
use l6_prog::ProgFault;
use l6_run::{Part, RunFault};
use std::test::Fail;

#[test]
fn faults_have_texts(rt: HostRuntime) -> Result<(), Fail> {
    for (fault, text) in [
        (RunFault::TooLong(Part::Deck), "deck too long"),
        (RunFault::TooLong(Part::Image), "image too long"),
        (RunFault::TooLong(Part::Input), "input too long"),
        (RunFault::TooLong(Part::Job), "job too long"),
        (RunFault::Asm(AsmFault::Form(3)), "card 3: no reading"),
        (RunFault::Asm(AsmFault::Limit(7)), "card 7: past a limit"),
        (
            RunFault::Asm(AsmFault::TwiceLabelled(8)),
            "card 8: label given twice",
        ),
        (RunFault::Asm(AsmFault::NoLabel(9)), "card 9: no such label"),
        (RunFault::Asm(AsmFault::NoMemory), "out of memory"),
        (RunFault::Load(LoadFault::NotWords(6)), "line 6: not a word"),
        (RunFault::Load(LoadFault::NotAnImage), "not an image"),
        (RunFault::Load(LoadFault::NoMemory), "out of memory"),
        (RunFault::Read(Part::Job), "read failed"),
        (RunFault::Write(80), "write failed after 80 bytes"),
        (RunFault::NoMemory, "out of memory"),
    ] {
        let reported = fault.to_string(rt.alloc())?;
        assert_eq!(rt; reported.as_str(), text);
    }
    for (fault, text) in [
        (ProgFault::Limit, "past a limit"),
        (ProgFault::Shape, "not in the form of a program"),
    ] {
        let reported = fault.to_string(rt.alloc())?;
        assert_eq!(rt; reported.as_str(), text);
    }
    for (fault, text) in [
        (MachineFault::NoMemory, "out of memory"),
        (MachineFault::BadLimits, "limits out of range"),
    ] {
        let reported = fault.to_string(rt.alloc())?;
        assert_eq!(rt; reported.as_str(), text);
    }
    Ok(())
}
