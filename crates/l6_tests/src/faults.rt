//! The texts of the libraries' faults.

use l6_card::CardFault;
use l6_image::LoadFault;
use l6_prog::ProgFault;
use l6_store::StoreFault;
use std::test::Fail;

#[test]
fn faults_of_programs_have_texts(rt: HostRuntime) -> Result<(), Fail> {
    for (fault, text) in [
        (ProgFault::Limit, "past a limit"),
        (ProgFault::Target, "a target is no statement"),
        (ProgFault::Shape, "not in the form of a program"),
    ] {
        let reported = fault.to_string(rt.alloc())?;
        assert_eq!(rt; reported.as_str(), text);
    }
    Ok(())
}

#[test]
fn faults_of_cards_have_texts(rt: HostRuntime) -> Result<(), Fail> {
    for (fault, text) in [
        (CardFault::Form(1), "card 1: no reading"),
        (CardFault::Limit(4095), "card 4095: past a limit"),
        (CardFault::NoMemory, "out of memory"),
    ] {
        let reported = fault.to_string(rt.alloc())?;
        assert_eq!(rt; reported.as_str(), text);
    }
    Ok(())
}

#[test]
fn faults_of_images_have_texts(rt: HostRuntime) -> Result<(), Fail> {
    for (fault, text) in [
        (LoadFault::NotWords(10), "line 10: not a word"),
        (LoadFault::NotAnImage, "not an image"),
        (LoadFault::NoMemory, "out of memory"),
    ] {
        let reported = fault.to_string(rt.alloc())?;
        assert_eq!(rt; reported.as_str(), text);
    }
    Ok(())
}

#[test]
fn faults_of_stores_have_texts(rt: HostRuntime) -> Result<(), Fail> {
    for (fault, text) in [
        (StoreFault::BadUnits, "units out of range"),
        (StoreFault::NoMemory, "out of memory"),
    ] {
        let reported = fault.to_string(rt.alloc())?;
        assert_eq!(rt; reported.as_str(), text);
    }
    Ok(())
}
