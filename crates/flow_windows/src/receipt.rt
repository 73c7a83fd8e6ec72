//! The receiving side of one window (RFC 9113, section 6.9.1).

ghost use Rattle.std.specs.Prelude.{◌≡◌, ◌+◌, ◌*◌, ◌-◌, ◌<◌, ◌≤◌, ◌↔◌, IsErr, OnOk, OnErr};
ghost use Rattle.flow_windows.specs.Receipt.{due_of, allowance_after, Received, Consumed, Granted};

use std::marker::Model;

/// DATA came past the window that was granted: FLOW_CONTROL_ERROR (RFC 9113, sections 6.9.1 and
/// 7). Nothing is counted.
#[derive(Clone, Copy, Debug, PartialEq, Eq)]
pub struct Exceeded;

/// What the peer may still send on one stream or on the connection, in bytes of DATA payload with
/// its padding, and what came of it.
#[derive(Debug, Drop)]
pub struct Receipt {
    full: u32,
    rest: u32,
    consumed: u32,
    held: u32,
}

impl Model for Receipt {
    ghost use Rattle.std.specs.Prelude.{◌≡◌, ◌+◌};
    ghost use Rattle.flow_windows.specs.Receipt.{Allowance, allowance};

    ghost Value = { Allowance };

    ghost view = { λ r. allowance r.full r.rest r.consumed r.held };

    ghost invariant = { λ r. r.rest + r.consumed + r.held ≡ r.full };
}

impl Receipt {
    /// A window of `full` bytes, all of which the peer may send.
    pub fn new(full: u32) -> Receipt
        ensures new { result ≡ record { full = full; rest = full; consumed = 0; held = 0 } }
        ensures parts { result.rest + result.consumed + result.held ≡ result.full }
    {
        Receipt {
            full,
            rest: full,
            consumed: 0,
            held: 0,
        }
    }

    /// Counts `n` bytes that came. They are held until they are consumed.
    pub fn received(&mut self, n: u32) -> Result<(), Exceeded>
        ensures refused { IsErr result ↔ (self.old.rest < n) }
        ensures ok { OnOk result (self.new
            ≡ record self.old { rest = self.old.rest - n; held = self.old.held + n }) }
        ensures err { OnErr result (self.new ≡ self.old) }
        ensures step { self.new ≡ allowance_after self.old (Received n) }
        ensures parts { self.new.rest + self.new.consumed + self.new.held ≡ self.new.full }
    {
        if n > self.rest {
            return Err(Exceeded);
        }
        self.rest -= n;
        self.held += n;
        Ok(())
    }

    /// Counts `n` held bytes as consumed, so that they may be granted again.
    pub fn consumed(&mut self, n: u32)
        requires { n ≤ self.old.held }
        ensures counts { self.new
            ≡ record self.old { consumed = self.old.consumed + n; held = self.old.held - n } }
        ensures step { self.new ≡ allowance_after self.old (Consumed n) }
        ensures parts { self.new.rest + self.new.consumed + self.new.held ≡ self.new.full }
    {
        self.held -= n;
        self.consumed += n;
    }

    /// The increment of the WINDOW_UPDATE that is due: what was consumed and not granted again,
    /// once at most half of the window is left. 0 where none is due.
    pub fn due(&self) -> u32
        ensures due { result ≡ due_of self.now }
        ensures parts { self.now.rest + self.now.consumed + self.now.held ≡ self.now.full }
        // Where nothing is due and nothing held, more than half of the window is left.
        ensures open { 0 < self.now.full → result ≡ 0 → self.now.held ≡ 0
            → self.now.full < 2 * self.now.rest }
    {
        if self.rest <= self.full / 2 {
            self.consumed
        } else {
            0
        }
    }

    /// Counts the due increment as granted.
    pub fn granted(&mut self)
        ensures counts { self.new
            ≡ record self.old {
              rest = self.old.rest + due_of self.old;
              consumed = self.old.consumed - due_of self.old;
            } }
        ensures step { self.new ≡ allowance_after self.old Granted }
        ensures parts { self.new.rest + self.new.consumed + self.new.held ≡ self.new.full }
    {
        let due = self.due();
        self.rest += due;
        self.consumed -= due;
    }
}
