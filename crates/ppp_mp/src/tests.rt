//! Worked cases of cutting, and of headers.

use super::{FragmentOut, Fragmenter, Header, read_header};
use std::test::Fail;

/// A packet that is cut: the class, the packet, the size of its fragments, and what they are.
#[derive(Clone, Copy)]
struct Case<'a> {
    class: u8,
    packet: &'a [u8],
    size: usize,
    fragments: &'a [&'a [u8]],
}

/// Cuts a packet, if it may be cut, and says whether the fragments are the right ones.
fn is_cut(fragmenter: &mut Fragmenter, case: &Case<'_>, out: &mut FragmentOut) -> bool {
    if 4 <= case.class
        || case.packet.is_empty()
        || 64 < case.packet.len()
        || case.size == 0
        || 64 < case.size
    {
        return false;
    }
    fragmenter.cut(case.class, case.packet, case.size, out);
    if out.count() != case.fragments.len() {
        return false;
    }
    for i in 0..out.count() {
        if out.at(i) != case.fragments[i] {
            return false;
        }
    }
    true
}

#[test]
fn long_form(rt: HostRuntime) -> Result<(), Fail> {
    let mut out = FragmentOut::new(rt.alloc())?;
    let mut fragmenter = Fragmenter::new(false);
    let cases = [
        Case {
            class: 0,
            packet: &[0x00, 0x21, 0x45, 0x00, 0x00, 0x14, 0xaa, 0xbb],
            size: 3,
            fragments: &[
                &[0x80, 0x00, 0x00, 0x00, 0x00, 0x21, 0x45],
                &[0x00, 0x00, 0x00, 0x01, 0x00, 0x00, 0x14],
                &[0x40, 0x00, 0x00, 0x02, 0xaa, 0xbb],
            ],
        },
        Case {
            class: 1,
            packet: &[0x00, 0x21, 0x46, 0x00],
            size: 4,
            fragments: &[&[0xc4, 0x00, 0x00, 0x00, 0x00, 0x21, 0x46, 0x00]],
        },
        Case {
            class: 0,
            packet: &[0x00, 0x21, 0x47],
            size: 4,
            fragments: &[&[0xc0, 0x00, 0x00, 0x03, 0x00, 0x21, 0x47]],
        },
    ];
    for case in cases.iter() {
        assert!(rt; is_cut(&mut fragmenter, case, &mut out));
    }
    assert_eq!(rt; fragmenter.numbers()[0], 4);
    assert_eq!(rt; fragmenter.numbers()[1], 1);
    Ok(())
}

#[test]
fn short_form_wraps(rt: HostRuntime) -> Result<(), Fail> {
    let mut out = FragmentOut::new(rt.alloc())?;
    let mut fragmenter = Fragmenter::new(true);
    let mut numbers = fragmenter.numbers();
    numbers[3] = 8191;
    fragmenter.set_numbers(numbers);
    let case = Case {
        class: 3,
        packet: &[0x00, 0x21, 0x45],
        size: 2,
        fragments: &[&[0xbf, 0xff, 0x00, 0x21], &[0x70, 0x00, 0x45]],
    };
    assert!(rt; is_cut(&mut fragmenter, &case, &mut out));
    assert_eq!(rt; fragmenter.numbers()[3], 1);
    Ok(())
}

#[test]
fn headers(rt: HostRuntime) -> Result<(), Fail> {
    let whole = Header {
        begin: true,
        end: true,
        class: 0,
        number: 0,
    };
    let cases: [(bool, &[u8], Option<(Header, usize)>); 6] = [
        (
            false,
            &[0xc0, 0x00, 0x00, 0x00, 0x00, 0x21, 0x45, 0x00, 0x00],
            Some((whole, 4)),
        ),
        (true, &[0xc0, 0x00, 0x00], Some((whole, 2))),
        (
            false,
            &[0x47, 0x01, 0x02, 0x03],
            Some((
                Header {
                    begin: false,
                    end: true,
                    class: 1,
                    number: 66_051,
                },
                4,
            )),
        ),
        (false, &[0xc0, 0x00, 0x00], None),
        (true, &[0xc0], None),
        (false, &[], None),
    ];
    for case in cases.iter() {
        assert_eq!(rt; read_header(case.0, case.1), case.2);
    }
    Ok(())
}
