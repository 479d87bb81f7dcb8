//! Frames that RFC 1662 and the formats spell out, in every cutting, and streams that are no frames.

use ppp_frame::{Deframer, Fed, Form, FrameBuf, Got, Why, encode, fcs};
use std::process::Abort;
use std::test::Fail;

const WHOLE: Form = Form {
    map: 0xffff_ffff,
    ac: false,
    pf: false,
};

const SHORT: Form = Form {
    map: 0,
    ac: true,
    pf: true,
};

// Form, protocol, information and the frame: three of LCP, whose header is whole, and one with short headers.
static FRAMES: [(Form, u16, &[u8], &[u8]); 4] = [
    (
        WHOLE,
        0xc021,
        b"\x0c\x07\x00\x04",
        b"\x7e\xff\x7d\x23\xc0\x21\x7d\x2c\x7d\x27\x7d\x20\x7d\x24\x87\xe8\x7e",
    ),
    (
        WHOLE,
        0xc021,
        b"\x07\x01\x00\x08\x0c\x07\x00\x04",
        b"\x7e\xff\x7d\x23\xc0\x21\x7d\x27\x7d\x21\x7d\x20\x7d\x28\x7d\x2c\x7d\x27\x7d\x20\x7d\x24\x76\x9c\x7e",
    ),
    (
        WHOLE,
        0xc021,
        b"\x0b\x01\x00\x09\x00\x00\x00\x00\x7e",
        b"\x7e\xff\x7d\x23\xc0\x21\x7d\x2b\x7d\x21\x7d\x20\x7d\x29\x7d\x20\x7d\x20\x7d\x20\x7d\x20\x7d\x5e\xd9\x7f\x7e",
    ),
    (SHORT, 0x0021, b"\x45\x00", b"\x7e\x21\x45\x00\xf5\xa7\x7e"),
];

// What a deframer answers to the last of these octets, in pieces of so many, each taken whole; before that it answers More.
fn answer(rt: &impl Abort, deframer: &mut Deframer, octets: &[u8], size: usize) -> Got {
    let mut got = Got::More;
    assert!(rt; size > 0);
    for piece in octets.chunks(size) {
        assert!(rt; got == Got::More);
        let fed = deframer.feed(piece);
        assert!(rt; fed.used == piece.len());
        got = fed.got;
    }
    got
}

// The deframer lends this frame.
fn check_frame(rt: &impl Abort, deframer: &Deframer, protocol: u16, info: &[u8]) {
    assert!(rt; deframer.has_frame());
    if deframer.has_frame() {
        let frame = deframer.frame();
        assert_eq!(rt; frame.protocol, protocol);
        assert!(rt; frame.info == info);
    }
}

#[test]
fn frames_are_written_as_the_table_says_and_read_back(rt: HostRuntime) -> Result<(), Fail> {
    assert_eq!(rt; fcs(b"123456789"), 0x906e);
    let mut out = FrameBuf::new(rt.alloc())?;
    let mut deframer = Deframer::new(rt.alloc(), 8200)?;
    deframer.set_short(true, true);
    for (form, protocol, info, octets) in &FRAMES {
        assert!(rt; encode(&mut out, *form, *protocol, info) == Ok(()));
        assert!(rt; out.octets() == *octets);
        assert!(rt; answer(&rt, &mut deframer, octets, 8) == Got::Frame);
        check_frame(&rt, &deframer, *protocol, info);
    }
    Ok(())
}

#[test]
fn information_of_8192_octets_is_the_most(rt: HostRuntime) -> Result<(), Fail> {
    let mut out = FrameBuf::new(rt.alloc())?;
    let info = vec![in rt.alloc(); 0; 8193]?;
    assert!(rt; encode(&mut out, WHOLE, 0xc021, &info).is_err());
    assert!(rt; encode(&mut out, WHOLE, 0xc021, &info[..8192]).is_ok());
    Ok(())
}

#[test]
fn a_frame_cut_in_an_escape_is_one_frame(rt: HostRuntime) -> Result<(), Fail> {
    let (_, protocol, info, octets) = FRAMES[2];
    let mut deframer = Deframer::new(rt.alloc(), 8200)?;
    for size in 1..octets.len() + 1 {
        assert!(rt; answer(&rt, &mut deframer, octets, size) == Got::Frame);
        check_frame(&rt, &deframer, protocol, info);
        assert!(rt;
            deframer.feed(b"\x7e")
                == Fed {
                    used: 1,
                    got: Got::More
                }
        );
        assert!(rt; !deframer.has_frame());
    }
    for cut in 0..octets.len() {
        let (first, second) = octets.split_at(cut);
        assert!(rt;
            deframer.feed(first)
                == Fed {
                    used: cut,
                    got: Got::More
                }
        );
        assert!(rt;
            deframer.feed(second)
                == Fed {
                    used: octets.len() - cut,
                    got: Got::Frame
                }
        );
        check_frame(&rt, &deframer, protocol, info);
    }
    Ok(())
}

#[test]
fn discards_have_the_first_cause(rt: HostRuntime) -> Result<(), Fail> {
    let mut deframer = Deframer::new(rt.alloc(), 8200)?;
    let rows: [(&[u8], Got); 5] = [
        (b"\x7e\xff\x7d\x7e", Got::Discard(Why::Aborted)),
        (
            b"\xff\x7d\x23\xc0\x21\x7d\x2c\x7d\x27\x7d\x20\x7d\x24\x87\xe9\x7e",
            Got::Discard(Why::BadFcs),
        ),
        (b"\x01\x02\x03\x7e", Got::Discard(Why::Short)),
        (
            b"\x31\x32\x33\x34\x35\x36\x37\x38\x39\x6e\x90\x7e",
            Got::Discard(Why::BadHeader),
        ),
        (
            b"\xff\x7d\x23\xc0\x21\x7d\x2c\x7d\x27\x7d\x20\x7d\x24\x87\xe8\x7e",
            Got::Frame,
        ),
    ];
    for (octets, got) in &rows {
        assert!(rt; answer(&rt, &mut deframer, octets, 3) == *got);
    }
    check_frame(&rt, &deframer, 0xc021, b"\x0c\x07\x00\x04");
    Ok(())
}

#[test]
fn a_short_frame_is_read_where_that_was_set(rt: HostRuntime) -> Result<(), Fail> {
    let (_, protocol, info, octets) = FRAMES[3];
    let mut deframer = Deframer::new(rt.alloc(), 8200)?;
    assert!(rt; answer(&rt, &mut deframer, octets, 9) == Got::Discard(Why::BadHeader));
    deframer.set_short(true, true);
    assert!(rt; answer(&rt, &mut deframer, octets, 9) == Got::Frame);
    deframer.set_short(false, false);
    check_frame(&rt, &deframer, protocol, info);
    Ok(())
}

#[test]
fn hostile_streams_end_at_their_flags(rt: HostRuntime) -> Result<(), Fail> {
    let mut deframer = Deframer::new(rt.alloc(), 8200)?;
    let (_, protocol, info, other) = FRAMES[0];
    let long = vec![in rt.alloc(); 0; 8201]?;
    let rows: [(&[u8], Got); 5] = [
        (&long, Got::Discard(Why::Oversize)),
        (&long[..8200], Got::Discard(Why::BadFcs)),
        (b"\xff\x03\xc0\x21\x7d", Got::Discard(Why::Aborted)),
        (b"\x01\x02\x03", Got::Discard(Why::Short)),
        (b"\x01\x02\x03\x04", Got::Discard(Why::BadFcs)),
    ];
    for (octets, got) in &rows {
        assert!(rt; deframer.feed(octets).got == Got::More);
        assert!(rt; deframer.feed(b"\x7e") == Fed { used: 1, got: *got });
        assert!(rt; deframer.held() == 0);
        assert!(rt; answer(&rt, &mut deframer, other, 7) == Got::Frame);
        check_frame(&rt, &deframer, protocol, info);
    }
    deframer.set_short(true, true);
    for (_, _, _, octets) in &FRAMES {
        for cut in 1..octets.len() {
            let lacks_the_last_flag = cut + 1 == octets.len();
            assert!(rt; deframer.feed(&octets[..cut]).got == Got::More);
            assert!(rt; (deframer.feed(b"\x7e").got == Got::Frame) == lacks_the_last_flag);
            assert!(rt; answer(&rt, &mut deframer, other, 7) == Got::Frame);
        }
    }
    Ok(())
}
