//! Laws over lists of calls: each state is the sum that its calls say (RFC 9113, section 6.9.1).

ghost use Rattle.std.specs.Prelude.{◌≡◌, ◌≤◌, List, ℕ, ℤ, pos, ◌+ℤ◌};
ghost use Rattle.flow_windows.specs.Window.{max_window_size, WindowCall, IsWindowSize, MayChangeAll, AllCount, MayChange, window_after, window_after_all, changes_of, sum_of_changes, IsInReach, initial_after, MayFollow, MayFollowAll};
ghost use Rattle.flow_windows.specs.Receipt.{Allowance, ReceiptCall, MayCountAll, IsSumOfCalls, allowance_after_all};

use crate::sizes::{DEFAULT_WINDOW_SIZE, MAX_WINDOW_SIZE};

/// The sizes are those of the standard: 2^31 - 1 (RFC 9113, section 6.9.1) and 65,535 (section
/// 6.9.2).
pub fn sizes_are_the_standards()
    ensures largest { MAX_WINDOW_SIZE ≡ 2147483647 }
    ensures at_first { DEFAULT_WINDOW_SIZE ≡ 65535 }
{}

/// After any list of calls of a `Window` it is what it was and the sum of the changes that were
/// not refused, and in range.
pub fn window_is_sum_of_calls()
    ensures sum { (start : ℤ) (calls : List WindowCall)
        → window_after_all start calls ≡ start +ℤ changes_of start calls }
    ensures range { (start : ℤ) (calls : List WindowCall)
        → IsWindowSize start → MayChangeAll start calls → IsWindowSize (window_after_all start calls) }
    ensures all { (start : ℤ) (calls : List WindowCall)
        → AllCount start calls → window_after_all start calls ≡ start +ℤ sum_of_changes calls }
{}

/// A `Window` is moved from the initial size that it was made or last moved with to any other: the
/// lower end is never passed, whatever calls came.
pub fn resizes_stay_in_range()
    ensures { (initial : ℕ) (size : ℤ) (calls : List WindowCall) → initial ≤ max_window_size
        → IsInReach initial size → MayFollowAll initial size calls → MayChangeAll size calls }
{}

/// Each call leaves a `Window` in reach of the initial size, where it goes from that size and sends
/// no more than there is room.
pub fn windows_stay_in_reach()
    ensures { (initial : ℕ) (size : ℤ) (call : WindowCall) → initial ≤ max_window_size
        → IsInReach initial size → MayFollow initial size call
        → MayChange size call × IsInReach (initial_after initial call) (window_after size call) }
{}

/// After any list of calls of a `Receipt` what the peer may send, what was consumed and what is
/// held are the sums of what came, was consumed and was granted.
pub fn receipt_is_sum_of_calls()
    ensures { (start : Allowance) (calls : List ReceiptCall)
        → MayCountAll start calls → IsSumOfCalls start calls (allowance_after_all start calls) }
{}
