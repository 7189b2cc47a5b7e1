// Values of the three kinds: octets, steps and middles at the edges.
use kinds::{Float32T, IntegerT16, IntegerT32, Kind};
use std::test::Fail;

// The octets of a value, as one number.
fn written<K: Kind>(value: K) -> u32 {
    let mut out = [0u8; 4];
    match value.write(&mut out) {
        Some(2) => u32::from(u16::from_be_bytes([out[0], out[1]])),
        Some(4) => u32::from_be_bytes(out),
        _ => u32::MAX,
    }
}

#[test]
fn whole_numbers(rt: HostRuntime) -> Result<(), Fail> {
    let low = IntegerT16::read(&[0xff, 0xfd]).ok_or("-3 does not read")?;
    let zero = IntegerT16::read(&[0x00, 0x00]).ok_or("0 does not read")?;
    assert_eq!(rt; written(low.middle(zero)), 0xfffe);
    assert_eq!(rt; written(low.lower(65_535)), 0x8000);
    assert_eq!(rt; written(zero.raise(65_535)), 0x7fff);
    assert!(rt; low.is_under(zero) && !zero.at_most(low));
    assert!(rt; IntegerT16::read(&[0x00, 0x00, 0x00]).is_none());
    let most = IntegerT32::read(&[0x7f, 0xff, 0xff, 0xf0]).ok_or(
        "15 below the highest does not read",
    )?;
    assert_eq!(rt; written(most.raise(16)), 0x7fff_ffff);
    assert_eq!(rt; written(most.lower(16)), 0x7fff_ffe0);
    Ok(())
}

#[test]
fn floats(rt: HostRuntime) -> Result<(), Fail> {
    let one = Float32T::read(&[0x3f, 0x80, 0x00, 0x00]).ok_or("1 does not read")?;
    let minus_zero = Float32T::read(&[0x80, 0x00, 0x00, 0x00]).ok_or("-0 does not read")?;
    assert_eq!(rt; written(one.raise(1024)), 0x4000_0000);
    assert_eq!(rt; written(one.lower(1024)), 0);
    assert_eq!(rt; written(one.lower(1536)), 0xbf00_0000);
    assert_eq!(rt; written(one.middle(minus_zero)), 0x3f00_0000);
    assert_eq!(rt; written(minus_zero), 0);
    assert!(rt; minus_zero.is_under(one));
    assert!(rt; Float32T::read(&[0x7f, 0x80, 0x00, 0x00]).is_none());
    assert!(rt; Float32T::read(&[0x7f, 0xc0, 0x00, 0x00]).is_none());
    assert!(rt; Float32T::read(&[0x3f, 0x80, 0x00]).is_none());
    Ok(())
}
