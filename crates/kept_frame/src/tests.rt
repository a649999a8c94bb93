//! The bytes of two states, and what is refused of them.

use crate::{KeptRefused, KeptRoom, are_kept, frame_refusal, kept_length, state_bytes};
use std::test::Fail;

// The digest of the bytes before it, from another program.
const DIGEST: [u8; 32] = [
    0x7f, 0x33, 0x66, 0x57, 0xe5, 0x28, 0x78, 0xcc, 0x0a, 0xe1, 0x18, 0xa3, 0x23, 0x9e, 0x80, 0xa9,
    0x4c, 0x00, 0x8f, 0x9a, 0x8a, 0xa1, 0x43, 0xfd, 0xe0, 0xd1, 0xff, 0xaa, 0xb7, 0x62, 0x12, 0xb1,
];

#[test]
fn states_stand_in_their_frame(rt: HostRuntime) -> Result<(), Fail> {
    let mut room = KeptRoom::reserve(rt.alloc(), kept_length(2, 5))?;
    room.begin(2);
    room.put(b"early");
    room.put(b"later");
    room.end();
    let bytes = room.bytes();
    assert_eq!(rt; bytes.len(), 54);
    assert!(rt; are_kept(bytes));
    assert!(rt; &bytes[..12] == b"GLASSKS1\0\0\0\x02".as_slice());
    assert!(rt; &bytes[22..] == DIGEST.as_slice());
    assert!(rt; frame_refusal(bytes, 5, 2).is_none());
    assert!(rt; state_bytes(bytes, 5, 1) == b"later".as_slice());
    Ok(())
}

#[test]
fn refusals_come_in_their_order(rt: HostRuntime) -> Result<(), Fail> {
    let mut room = KeptRoom::reserve(rt.alloc(), kept_length(2, 5))?;
    room.begin(2);
    room.put(b"early");
    room.put(b"latex");
    room.put(&DIGEST);
    let bytes = room.bytes();
    assert!(rt; frame_refusal(b"GLASSKS1", 6, 1) == Some(KeptRefused::Short { len: 8 }));
    assert!(rt; frame_refusal(bytes, 6, 1) == Some(KeptRefused::States { states: 2, most: 1 }));
    let other = KeptRefused::Length {
        found: 54,
        wanted: 56,
    };
    assert!(rt; frame_refusal(bytes, 6, 2) == Some(other));
    let damaged = match frame_refusal(bytes, 5, 2) {
        Some(
            KeptRefused::Digest {
                stored,
                computed: _,
            },
        ) => stored == DIGEST,
        _ => false,
    };
    assert!(rt; damaged);
    Ok(())
}
