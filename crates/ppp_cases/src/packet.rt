//! Each public call once, over packets and options that RFC 1661 spells out.

use ppp_packet::{
    Code, Disc, DiscClass, Opt, OptList, PacketRef, Proto, UnknownCode, UnknownProto, read_again,
    read_options, read_packet, write_options, write_packet,
};

// Octets, and the packet in them.
static PACKETS: [(&[u8], Option<PacketRef>); 4] = [
    (
        &[2, 7, 0, 10, 7, 2, 1, 4, 5, 220, 255],
        Some(PacketRef {
            code: 2,
            id: 7,
            rest: &[7, 2, 1, 4, 5, 220],
        }),
    ),
    (&[1, 1, 0, 3], None),
    (&[1, 1, 0, 8, 1, 4], None),
    (&[1, 1, 0], None),
];

#[test]
fn reads_packets_and_options(rt: HostRuntime) {
    for (octets, packet) in &PACKETS {
        assert!(rt; read_packet(octets) == *packet, "at {octets:?}");
    }
    let options = read_options(&[7, 2, 1, 4, 5, 220]).expect(&rt, "two options");
    assert!(rt; options.count() == 2 && !options.is_empty());
    assert!(rt; options.at(0).kind == 7);
    assert!(rt; options.at(1).body == [5u8, 220].as_slice());
    assert!(rt; read_options(&[5, 1]).is_none(), "a Length of 1");
    assert!(rt; read_options(&[5, 4, 0]).is_none(), "an octet too few");
}

#[test]
fn keeps_and_writes_options(rt: HostRuntime) {
    let mut list = OptList::new();
    assert!(rt; list.push(5, &[0, 0, 0, 4]).is_ok());
    assert!(rt; list.push(5, &[9]).is_ok());
    assert!(rt; list.push(7, &[0; 118]).is_err(), "129 octets");
    assert!(rt; list.push(7, &[0; 117]).is_ok(), "128 octets");
    assert!(rt; list.find(5) == Some([0u8, 0, 0, 4].as_slice()));
    let options = list.options();
    let kept = OptList::from_options(&options).expect(&rt, "128 octets");
    assert!(rt; kept.copied().same_as(&options.copied()));
    let mut octets = [0u8; 132];
    assert!(rt; write_packet(&mut octets, 1, 3, list.octets()) == 132);
    assert!(rt; octets[..12] == [1u8, 3, 0, 132, 5, 6, 0, 0, 0, 4, 5, 3]);
    let mut octets = [7u8; 130];
    assert!(rt; write_options(&mut octets, &list) == 128);
    assert!(rt; octets[126..] == [0u8, 0, 7, 7]);
}

#[test]
fn keeps_single_values(rt: HostRuntime) {
    let option = Opt::new(5, &[1, 2]);
    assert!(rt; option.kind() == 5 && option.body() == [1u8, 2].as_slice());
    assert!(rt; option.copied().is_same(&option.as_ref()));
    assert!(rt; Disc::new(3, &[1, 2]) < Disc::new(3, &[1, 2, 0]));
    assert!(rt; Disc::new(1, &[9]) < Disc::new(3, &[1]));
    assert!(rt; DiscClass::try_from(DiscClass::Mac.number()) == Ok(DiscClass::Mac));
    assert!(rt; DiscClass::Mac.has_size(6));
    assert!(rt; DiscClass::Local.has_size(20) && !DiscClass::Local.has_size(21));
    assert!(rt;
        DiscClass::DirectoryNumber.has_size(15) && !DiscClass::DirectoryNumber.has_size(16)
    );
    read_again();
}

#[test]
fn reads_codes_and_numbers_protocols(rt: HostRuntime) {
    assert!(rt; Code::try_from(10) == Ok(Code::EchoReply));
    assert!(rt; Code::try_from(12) == Err(UnknownCode(12)));
    assert!(rt; Code::EchoReply.number() == 10);
    assert!(rt; Proto::try_from(0xc021) == Ok(Proto::Lcp));
    assert!(rt; Proto::try_from(0x0021) == Err(UnknownProto(0x0021)));
    assert!(rt; Proto::Bacp.number() == 0xc02b);
}
