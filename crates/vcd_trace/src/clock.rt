// A trace, clock by clock.

ghost use Rattle.std.specs.Prelude.{◌≡◌, ◌≤◌, ◌<◌, ◌+◌, ◌^◌, ◌++◌, [], ◌∷◌, length, decimal, IfOk, OnOk, OnErr, IfSome, IsOk};
ghost use Rattle.std.specs.Vec.{vec_len, vec_capacity};
ghost use Rattle.vcd_trace.specs.Layout.{AreValues, all_lines, change_lines, changed_lines, time_line, text_of};
ghost use Rattle.vcd_trace.specs.Told.{line_room, lines_room, room_of, clock_text};

use crate::number::{id_length, push_value};
use itoa::Buffer;
use netlist::Width;

/// The bytes of the longest time line: `#`, the digits of the greatest time, and an LF.
pub const TIME_LINE_BYTES: usize = 22;

// The greatest length of a variable's line with its LF.
pub(crate) fn room_for_line(width: Width, place: usize) -> usize
    ensures { result ≡ line_room width place }
{
    let bits = width.bits();
    if bits == 1 {
        2 + id_length(place)
    } else {
        usize::from(bits) + 3 + id_length(place)
    }
}

// The greatest length of the lines of all variables, where that is a length.
pub(crate) fn room_for_lines(widths: &[Width]) -> Option<usize>
    ensures { IfSome result (λ n. n ≡ lines_room 0 widths.now) }
{
    let mut room: usize = 0;
    for (place, width) in widths.iter().enumerate() {
        room = room.checked_add(room_for_line(*width, place))?;
    }
    Some(room)
}

// Adds the line of a time and its LF, for which there is room.
#[tactic(auto, using(crate::proofs::Rooms::time_fits))]
pub(crate) fn push_time(to: &mut Vec<u8>, time: u64)
    requires { vec_len to.old + TIME_LINE_BYTES ≤ vec_capacity to.old }
    ensures items { to.new.items ≡ to.old.items ++ (time_line time ++ 10 ∷ []) }
    ensures len { vec_len to.new ≡ vec_len to.old + length (time_line time) + 1 }
    ensures capacity { vec_capacity to.new ≡ vec_capacity to.old }
{
    to.push_reserved(b'#');
    let mut digits = Buffer::new();
    push_bytes(to, digits.format(time).as_bytes());
    to.push_reserved(b'\n');
}

// Adds bytes, for which there is room.
fn push_bytes(to: &mut Vec<u8>, bytes: &[u8])
    requires { vec_len to.old + length bytes.now ≤ vec_capacity to.old }
    ensures items { to.new.items ≡ to.old.items ++ bytes.now }
    ensures len { vec_len to.new ≡ vec_len to.old + length bytes.now }
    ensures capacity { vec_capacity to.new ≡ vec_capacity to.old }
{
    for byte in bytes {
        to.push_reserved(*byte);
    }
}

// Adds the lines of all variables, for which there is room.
pub(crate) fn push_all(to: &mut Vec<u8>, widths: &[Width], values: &[u64])
    requires values { AreValues widths.now values.now }
    requires room { vec_len to.old + length (text_of (all_lines 0 widths.now values.now)) ≤ vec_capacity to.old }
    ensures items { to.new.items ≡ to.old.items ++ text_of (all_lines 0 widths.now values.now) }
    ensures capacity { vec_capacity to.new ≡ vec_capacity to.old }
{
    for (place, value) in values.iter().enumerate() {
        push_value(to, widths[place], place, *value);
    }
}

// Adds the line of a variable where its value changed, for which there is room.
fn push_change(to: &mut Vec<u8>, width: Width, place: usize, before: u64, value: u64)
    requires fits { value < 2 ^ width }
    requires room { vec_len to.old + length (text_of (change_lines width place before value)) ≤ vec_capacity to.old }
    ensures items { to.new.items ≡ to.old.items ++ text_of (change_lines width place before value) }
    ensures len { vec_len to.new ≡ vec_len to.old + length (text_of (change_lines width place before value)) }
    ensures capacity { vec_capacity to.new ≡ vec_capacity to.old }
{
    if before != value {
        push_value(to, width, place, value);
    }
}

// Adds the lines of the variables whose value changed, for which there is room.
pub(crate) fn push_changes(to: &mut Vec<u8>, widths: &[Width], before: &[u64], values: &[u64])
    requires before { length before.now ≡ length widths.now }
    requires values { AreValues widths.now values.now }
    requires room { vec_len to.old + length (text_of (changed_lines 0 widths.now before.now values.now)) ≤ vec_capacity to.old }
    ensures items { to.new.items ≡ to.old.items ++ text_of (changed_lines 0 widths.now before.now values.now) }
    ensures capacity { vec_capacity to.new ≡ vec_capacity to.old }
{
    for (place, value) in values.iter().enumerate() {
        push_change(to, widths[place], place, before[place], *value);
    }
}

// Adds the text of a clock, for which there is room.
pub(crate) fn push_clock(
    to: &mut Vec<u8>,
    time: u64,
    widths: &[Width],
    before: &[u64],
    values: &[u64],
)
    requires before { length before.now ≡ length widths.now }
    requires values { AreValues widths.now values.now }
    requires room { vec_len to.old + room_of widths.now ≤ vec_capacity to.old }
    ensures items { to.new.items ≡ to.old.items ++ clock_text (record { widths = widths.now; values = before.now; time = time }) values.now }
    ensures capacity { vec_capacity to.new ≡ vec_capacity to.old }
{
    push_time(to, time);
    if time == 0 {
        push_all(to, widths, values);
    } else {
        push_changes(to, widths, before, values);
    }
}
