// Frames of requests and responses, octet by octet.
use faults::{Denial, Fault};
use isdu::{Direction, Request, compose, confirm_read, confirm_write, decode, refuse};
use std::test::Fail;

#[test]
fn setpoint_goes_out_and_back(rt: HostRuntime) -> Result<(), Fail> {
    let request = Request {
        direction: Direction::Write,
        index: 60,
        subindex: 1,
        data: &[0x03, 0xE8],
    };
    let mut out = [0xAA; 8];
    assert_eq!(rt; compose(&request, &mut out)?, 6);
    assert_eq!(rt; out, [0x26, 0x3C, 0x01, 0x03, 0xE8, 0xF0, 0xAA, 0xAA]);
    assert_eq!(rt; decode(&out[0..6])?, request);
    Ok(())
}

#[test]
fn denied_frames(rt: HostRuntime) {
    assert_eq!(rt; decode(&[]), Err(Fault::of(Denial::FrameLength)));
    assert_eq!(rt;
        decode(&[0x93, 0x3B, 0xA9]),
        Err(Fault::of(Denial::CheckOctet))
    );
    assert_eq!(rt; decode(&[0x52, 0x52]), Err(Fault::of(Denial::Service)));
}

#[test]
fn replies(rt: HostRuntime) -> Result<(), Fail> {
    let mut out = [0xAA; 4];
    assert_eq!(rt; confirm_write(&mut out)?, 2);
    assert_eq!(rt; out, [0x52, 0x52, 0xAA, 0xAA]);
    out[1] = 0x05;
    assert_eq!(rt; confirm_read(1, &mut out)?, 3);
    assert_eq!(rt; out, [0xD3, 0x05, 0xD6, 0xAA]);
    assert_eq!(rt; refuse(Direction::Write, 0x8031, &mut out)?, 4);
    assert_eq!(rt; out, [0x44, 0x80, 0x31, 0xF5]);
    Ok(())
}

// The octets 1, 2, 3 and so on stand behind the first octet.
fn counted() -> [u8; 18] {
    [
        0xAA, 1, 2, 3, 4, 5, 6, 7, 8, 9, 10, 11, 12, 13, 14, 15, 0xBB, 0xBB,
    ]
}

#[test]
fn reads_up_to_the_second_length_octet(rt: HostRuntime) -> Result<(), Fail> {
    let mut out = [0xAA; 4];
    assert_eq!(rt; confirm_read(0, &mut out)?, 2);
    assert_eq!(rt; out, [0xD2, 0xD2, 0xAA, 0xAA]);
    let mut out = counted();
    assert_eq!(rt; confirm_read(13, &mut out)?, 15);
    assert_eq!(rt;
        out,
        [
            0xDF, 1, 2, 3, 4, 5, 6, 7, 8, 9, 10, 11, 12, 13, 0xDE, 15, 0xBB, 0xBB
        ]
    );
    let mut out = counted();
    assert_eq!(rt; confirm_read(14, &mut out)?, 17);
    assert_eq!(rt;
        out,
        [
            0xD1, 0x11, 1, 2, 3, 4, 5, 6, 7, 8, 9, 10, 11, 12, 13, 14, 0xCF, 0xBB
        ]
    );
    Ok(())
}

#[test]
fn denied_reads(rt: HostRuntime) {
    let mut out = counted();
    assert_eq!(rt;
        confirm_read(16, &mut out),
        Err(Fault::of(Denial::BufferTooShort))
    );
    assert_eq!(rt;
        confirm_read(235, &mut out),
        Err(Fault::of(Denial::BufferTooShort))
    );
    assert_eq!(rt;
        confirm_read(236, &mut out),
        Err(Fault::of(Denial::NoFrame))
    );
    assert_eq!(rt; out, counted());
}
