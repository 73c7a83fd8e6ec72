use crate::{Exceeded, MAX_WINDOW_SIZE, Overflow, Receipt, Window};

/// The example of RFC 9113, section 6.9.2: 60 KB of 64 KB are sent, then the initial size becomes
/// 16 KB, so that the window is -44 KB until WINDOW_UPDATE makes it positive.
#[test]
fn a_smaller_initial_size_makes_a_window_negative(rt: HostRuntime) {
    let mut window = Window::new(65_536);
    window.spend(61_440);
    assert_eq!(rt; window.resize(65_536, 16_384), Ok(()));
    assert_eq!(rt; window.room(), 0);
    assert_eq!(rt; window.grant(45_056), Ok(()));
    assert_eq!(rt; window.room(), 0);
    assert_eq!(rt; window.grant(MAX_WINDOW_SIZE), Ok(()));
    assert_eq!(rt; window.room(), MAX_WINDOW_SIZE);
    assert_eq!(rt; window.grant(1), Err(Overflow));
    assert_eq!(rt; window.room(), MAX_WINDOW_SIZE);
}

#[test]
fn half_of_a_window_is_granted_again(rt: HostRuntime) {
    let mut receipt = Receipt::new(65_535);
    assert_eq!(rt; receipt.received(65_536), Err(Exceeded));
    assert_eq!(rt; receipt.received(32_767), Ok(()));
    receipt.consumed(32_767);
    assert_eq!(rt; receipt.due(), 0);
    assert_eq!(rt; receipt.received(1), Ok(()));
    assert_eq!(rt; receipt.due(), 32_767);
    receipt.granted();
    assert_eq!(rt; receipt.due(), 0);
    assert_eq!(rt; receipt.received(65_535), Err(Exceeded));
    assert_eq!(rt; receipt.received(65_534), Ok(()));
    assert_eq!(rt; receipt.due(), 0);
}
