//! The values of a new header, and parts that are set as a whole.

use dns_header::{Flags, Header, HeaderCounts, HeaderSection};

const OCTETS: [u8; 12] = [
    0x01, 0x02, 0x00, 0x00, 0x12, 0x34, 0x56, 0x78, 0x9A, 0xBC, 0xDE, 0xF0,
];

#[test]
fn parts_are_set_as_a_whole(rt: HostRuntime) {
    let section = HeaderSection::for_message_slice(&OCTETS);
    let mut other = HeaderSection::new();
    assert!(rt;
        other == HeaderSection::default()
            && other.header() == Header::default()
            && Header::new() == Header::default()
            && other.counts() == HeaderCounts::default()
            && Header::new().flags() == Flags::default()
    );
    other.set_header(section.header());
    assert!(rt;
        other.header() == section.header() && other.counts().as_slice() == [0u8; 8].as_slice()
    );
    let mut counts = HeaderCounts::new();
    counts.set(section.counts());
    other.set_counts(counts);
    assert!(rt; other == section);
}
