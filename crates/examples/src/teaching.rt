// The teach; docs/RULES.md, "Teach", has the rules.
use faults::Place;
use kinds::{IntegerT16, Kind};
use std::process::Abort;
use std::test::Fail;
use teach::{Setpoint, Store, Teach, Terms};

// SystemCommand.
const PLACE: Place = Place {
    index: 2,
    subindex: 0,
};

const TERMS: Terms = Terms {
    capture: 1,
    spread: 0,
    distance: 10,
};

fn value(n: i16) -> Result<IntegerT16, Fail> {
    IntegerT16::read(&n.to_be_bytes()).ok_or_else(|| Fail::new("no value"))
}

fn nothing(rt: &impl Abort, store: Option<Store<IntegerT16>>) {
    assert!(rt; store.is_none());
}

fn stores(
    rt: &impl Abort,
    store: Option<Store<IntegerT16>>,
    setpoint: Setpoint,
    n: i16,
) -> Result<(), Fail> {
    let store = store.ok_or_else(|| Fail::new("nothing to store"))?;
    let mut octets = [0; 2];
    assert_eq!(rt; store.value.write(&mut octets), Some(2));
    assert_eq!(rt; octets, n.to_be_bytes());
    assert_eq!(rt; store.setpoint, setpoint);
    Ok(())
}

// A command that is denied: the number says why, and TeachResult stays.
fn denied(
    rt: &impl Abort,
    teach: &mut Teach<IntegerT16>,
    code: u8,
    number: u8,
) -> Result<(), Fail> {
    let before = teach.result();
    let reply = teach.command(TERMS, code, PLACE);
    let fault = reply.err().ok_or_else(|| Fail::new("not denied"))?;
    assert_eq!(rt; fault.denial.number(), number);
    assert_eq!(rt; teach.result(), before);
    Ok(())
}

// SP1 TP1 at 1000: the teach waits for the second teachpoint.
fn first_point(rt: &impl Abort, teach: &mut Teach<IntegerT16>) -> Result<(), Fail> {
    nothing(rt, teach.command(TERMS, 0x43, PLACE)?);
    assert_eq!(rt; teach.result(), 0x05);
    nothing(rt, teach.feed(TERMS, value(1000)?));
    assert_eq!(rt; teach.result(), 0x14);
    Ok(())
}

fn second_point(rt: &impl Abort, teach: &mut Teach<IntegerT16>, n: i16) -> Result<(), Fail> {
    nothing(rt, teach.command(TERMS, 0x44, PLACE)?);
    assert_eq!(rt; teach.result(), 0x15);
    nothing(rt, teach.feed(TERMS, value(n)?));
    assert_eq!(rt; teach.result(), 0x34);
    Ok(())
}

#[test]
fn two_values(rt: HostRuntime) -> Result<(), Fail> {
    let mut teach = Teach::idle();
    first_point(&rt, &mut teach)?;
    second_point(&rt, &mut teach, 1009)?;
    nothing(&rt, teach.command(TERMS, 0x40, PLACE)?);
    assert_eq!(rt; teach.result(), 0x37);
    first_point(&rt, &mut teach)?;
    second_point(&rt, &mut teach, 1010)?;
    stores(&rt, teach.command(TERMS, 0x40, PLACE)?, Setpoint::Sp1, 1005)?;
    assert_eq!(rt; teach.result(), 0x31);
    Ok(())
}

#[test]
fn single_value(rt: HostRuntime) -> Result<(), Fail> {
    let terms = Terms {
        capture: 3,
        spread: 2,
        distance: 10,
    };
    let mut teach = Teach::idle();
    nothing(&rt, teach.command(terms, 0x41, PLACE)?);
    nothing(&rt, teach.feed(terms, value(100)?));
    nothing(&rt, teach.feed(terms, value(102)?));
    stores(&rt, teach.feed(terms, value(101)?), Setpoint::Sp1, 101)?;
    assert_eq!(rt; teach.result(), 0x01);
    nothing(&rt, teach.command(terms, 0x41, PLACE)?);
    nothing(&rt, teach.feed(terms, value(100)?));
    nothing(&rt, teach.feed(terms, value(103)?));
    nothing(&rt, teach.feed(terms, value(101)?));
    assert_eq!(rt; teach.result(), 0x07);
    Ok(())
}

#[test]
fn dynamic(rt: HostRuntime) -> Result<(), Fail> {
    let mut teach = Teach::idle();
    nothing(&rt, teach.command(TERMS, 0x49, PLACE)?);
    nothing(&rt, teach.feed(TERMS, value(0)?));
    nothing(&rt, teach.feed(TERMS, value(50)?));
    nothing(&rt, teach.command(TERMS, 0x49, PLACE)?);
    nothing(&rt, teach.feed(TERMS, value(200)?));
    nothing(&rt, teach.feed(TERMS, value(220)?));
    stores(&rt, teach.command(TERMS, 0x4A, PLACE)?, Setpoint::Sp2, 210)?;
    assert_eq!(rt; teach.result(), 0x02);
    Ok(())
}

#[test]
fn cancelled(rt: HostRuntime) -> Result<(), Fail> {
    let mut teach = Teach::idle();
    first_point(&rt, &mut teach)?;
    nothing(&rt, teach.command(TERMS, 0x4F, PLACE)?);
    assert_eq!(rt; teach.result(), 0x00);
    Ok(())
}

#[test]
fn denials(rt: HostRuntime) -> Result<(), Fail> {
    let mut teach = Teach::idle();
    denied(&rt, &mut teach, 0x4B, 20)?;
    denied(&rt, &mut teach, 0x4F, 21)?;
    first_point(&rt, &mut teach)?;
    denied(&rt, &mut teach, 0x40, 21)?;
    denied(&rt, &mut teach, 0x45, 21)?;
    nothing(&rt, teach.command(TERMS, 0x44, PLACE)?);
    denied(&rt, &mut teach, 0x4F, 21)
}
