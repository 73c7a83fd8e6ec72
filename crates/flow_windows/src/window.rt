//! The sending side of one window (RFC 9113, sections 6.9.1 and 6.9.2).

ghost use Rattle.std.specs.Prelude.{◌≡◌, ◌≤◌, ◌<◌, ◌↔◌, IsErr, IfOk, OnOk, OnErr, pos, negsuc, ◌+ℤ◌, ◌-ℤ◌, ◌<ℤ◌, ◌≤ℤ◌};
ghost use Rattle.flow_windows.specs.Window.{max_window_size, IsWindowSize, IsInReach, room_of, window_after, Grant, Resize, Spend};

use crate::sizes::MAX_WINDOW_SIZE;
use std::marker::Model;

/// A change would move the window past `MAX_WINDOW_SIZE`: FLOW_CONTROL_ERROR (RFC 9113, section
/// 6.9.1). The window stays as it was.
#[derive(Clone, Copy, Debug, PartialEq, Eq)]
pub struct Overflow;

/// What may still be sent on one stream or on the connection, in bytes of DATA payload with its
/// padding. A smaller INITIAL_WINDOW_SIZE can make it negative (RFC 9113, section 6.9.2).
#[derive(Debug, Drop)]
pub struct Window {
    size: i32,
}

impl Model for Window {
    ghost use Rattle.std.specs.Prelude.{ℤ};
    ghost use Rattle.flow_windows.specs.Window.{IsWindowSize};

    ghost Value = { ℤ };

    ghost view = { λ w. w.size };

    ghost invariant = { λ w. IsWindowSize w.size };
}

/// The window after a change, or none past the largest.
fn changed(size: i32, change: i64) -> Result<i32, Overflow>
    requires low { negsuc 2147483647 ≤ℤ (size +ℤ change) }
    requires high { change ≤ℤ pos 4294967295 }
    ensures refused { IsErr result ↔ (pos max_window_size <ℤ (size +ℤ change)) }
    ensures ok { IfOk result (λ now. now ≡ size +ℤ change) }
{
    let sum = i64::from(size) + change;
    if sum > i64::from(MAX_WINDOW_SIZE) {
        Err(Overflow)
    } else {
        Ok(sum as i32)
    }
}

impl Window {
    /// A window of `size` bytes.
    pub fn new(size: u32) -> Window
        requires { size ≤ max_window_size }
        ensures size { result ≡ pos size }
        ensures range { IsWindowSize result }
        ensures reach { IsInReach size result }
    {
        Window { size: size as i32 }
    }

    /// Adds the increment of a WINDOW_UPDATE (RFC 9113, section 6.9.1).
    pub fn grant(&mut self, n: u32) -> Result<(), Overflow>
        ensures refused { IsErr result ↔ (pos max_window_size <ℤ (self.old +ℤ pos n)) }
        ensures ok { OnOk result (self.new ≡ self.old +ℤ pos n) }
        ensures err { OnErr result (self.new ≡ self.old) }
        ensures step { self.new ≡ window_after self.old (Grant n) }
        ensures range { IsWindowSize self.new }
    {
        self.size = changed(self.size, i64::from(n))?;
        Ok(())
    }

    /// Moves the window as SETTINGS_INITIAL_WINDOW_SIZE goes from `old` to `new` (RFC 9113,
    /// section 6.9.2). It may become negative.
    pub fn resize(&mut self, old: u32, new: u32) -> Result<(), Overflow>
        requires old { old ≤ max_window_size }
        requires new { new ≤ max_window_size }
        requires low { negsuc 2147483647 ≤ℤ (self.old +ℤ (pos new -ℤ pos old)) }
        ensures refused { IsErr result ↔ (pos max_window_size <ℤ (self.old +ℤ (pos new -ℤ pos old))) }
        ensures ok { OnOk result (self.new ≡ self.old +ℤ (pos new -ℤ pos old)) }
        ensures err { OnErr result (self.new ≡ self.old) }
        ensures step { self.new ≡ window_after self.old (Resize old new) }
        ensures range { IsWindowSize self.new }
    {
        self.size = changed(self.size, i64::from(new) - i64::from(old))?;
        Ok(())
    }

    /// Takes off `n` bytes that are sent.
    pub fn spend(&mut self, n: u32)
        requires { n ≤ room_of self.old }
        ensures size { self.new ≡ self.old -ℤ pos n }
        ensures step { self.new ≡ window_after self.old (Spend n) }
        ensures range { IsWindowSize self.new }
    {
        if n > 0 {
            self.size -= n as i32;
        }
    }

    /// How many bytes may be sent now: the window, or 0 where it is negative.
    pub fn room(&self) -> u32
        ensures room { result ≡ room_of self.now }
        ensures range { IsWindowSize self.now }
    {
        if self.size > 0 { self.size as u32 } else { 0 }
    }
}
