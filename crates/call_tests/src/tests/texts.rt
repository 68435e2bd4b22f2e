//! Cuts and numbers: each call once.

use byte_text::{begins_with_digit, cut, number};

#[test]
fn texts_are_cut_and_read(rt: HostRuntime) {
    let (part, rest) = cut(b"a,b,c", b',');
    assert!(rt; part == b"a".as_slice() && rest == Some(b"b,c".as_slice()));
    assert!(rt; number(b"255", 255) == Some(255) && begins_with_digit(b"0x"));
}
