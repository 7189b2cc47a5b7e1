// Judging and signals; most cases are those of docs/RULES.md, "Judging".
use channels::{Reading, Row};
use kinds::{IntegerT16, Kind};
use std::process::Abort;
use std::test::Fail;

fn value(n: i16) -> Result<IntegerT16, Fail> {
    Ok(IntegerT16::read(&n.to_be_bytes()).ok_or("no value")?)
}

fn row(sp1: i16, sp2: i16, mode: u8) -> Result<Row<IntegerT16>, Fail> {
    Ok(Row {
        sp1: value(sp1)?,
        sp2: value(sp2)?,
        hysteresis: 5,
        logic: 0,
        mode,
        active: false,
    })
}

// Whether the values, one after the other, bring about the expected signals.
fn signals(
    rt: &impl Abort,
    mut row: Row<IntegerT16>,
    values: &[i16],
    expected: &[bool],
) -> Result<(), Fail> {
    for (v, on) in values.iter().zip(expected) {
        row.judge(Reading::Value(value(*v)?));
        assert_eq!(rt; row.signal(), *on);
    }
    Ok(())
}

#[test]
fn single_point(rt: HostRuntime) -> Result<(), Fail> {
    signals(
        &rt,
        row(1000, 0, 1)?,
        &[999, 1000, 995, 994],
        &[false, true, true, false],
    )
}

#[test]
fn window(rt: HostRuntime) -> Result<(), Fail> {
    let values = [1000, 995, 994, 2000, 2005, 2006];
    let expected = [true, true, false, true, true, false];
    signals(&rt, row(2000, 1000, 2)?, &values, &expected)?;
    signals(&rt, row(1000, 2000, 2)?, &values, &expected)
}

#[test]
fn two_point(rt: HostRuntime) -> Result<(), Fail> {
    let values = [499, 500, 501, 500, 499];
    signals(
        &rt,
        row(500, 500, 3)?,
        &values,
        &[false, true, true, true, false],
    )?;
    let values = [600, 601, 599, 501, 500, 599, 600];
    signals(
        &rt,
        row(600, 500, 3)?,
        &values,
        &[true, true, true, true, false, false, true],
    )
}

#[test]
fn deactivated(rt: HostRuntime) -> Result<(), Fail> {
    let mut row = row(0, 100, 0)?;
    row.logic = 1;
    signals(&rt, row, &[50, 0, 100], &[false, false, false])
}

#[test]
fn inverted_and_held(rt: HostRuntime) -> Result<(), Fail> {
    let mut row = row(1000, 0, 1)?;
    row.logic = 1;
    signals(&rt, row, &[1000, 994], &[false, true])?;
    row.judge(Reading::Value(value(1000)?));
    row.judge(Reading::Below);
    row.judge(Reading::Above);
    row.judge(Reading::NoData);
    assert!(rt; row.active);
    Ok(())
}
