//! How long a key may be.
use std::test::Fail;
use vb_types::Key;

#[test]
fn a_key_has_at_most_250_bytes(rt: HostRuntime) -> Result<(), Fail> {
    let bytes = [b'k'; 251];
    assert!(rt; Key::new(rt.alloc(), &bytes[..250])?.is_some());
    assert!(rt; Key::new(rt.alloc(), &bytes)?.is_none());
    Ok(())
}
