// Calls of what `rights` keeps open for crates that are built on it.
use rights::labels::label_in;

// A table of two records, at bytes 4 and 36: the level, the length of the label, the label, zeros, and the window 1 to 366.
const TABLE: &[u8] = b"\x02\0\0\0\
\x00\x04Week\0\0\0\0\0\0\0\0\0\0\0\0\0\0\0\0\0\0\0\0\x01\0\x6e\x01\0\0\
\x01\x06Monday\0\0\0\0\0\0\0\0\0\0\0\0\0\0\0\0\0\0\x01\0\x6e\x01\0\0";

#[test]
fn label_of_a_record(rt: HostRuntime) {
    assert_eq!(rt; label_in(TABLE, 4), b"Week".as_slice());
    assert_eq!(rt; label_in(TABLE, 36), b"Monday".as_slice());
}
