// Numbers of a trace: identifiers and values.

ghost use Rattle.std.specs.Prelude.{◌≡◌, ◌≤◌, ◌<◌, ◌+◌, ◌^◌, ◌++◌, [], ◌∷◌, length};
ghost use Rattle.std.specs.Vec.{vec_len, vec_capacity};
ghost use Rattle.vcd_trace.specs.Layout.{binary, id_of, value_line};

use netlist::Width;

// The number of bytes that can are in an identifier: the printable ones, from `!` on.
const ID_BASE: usize = 94;

// The number of bytes of a variable's identifier.
#[tactic(auto, using(crate::proofs::Numbers::id_one, crate::proofs::Numbers::id_one_more, crate::proofs::Numbers::id_short))]
pub(crate) fn id_length(place: usize) -> usize
    ensures length { result ≡ length (id_of place) }
    ensures few { result ≤ 10 }
{
    if place < ID_BASE {
        return 1;
    }
    1 + id_length(place / ID_BASE)
}

// Adds a variable's identifier, for which there is room.
pub(crate) fn push_id(to: &mut Vec<u8>, place: usize)
    requires { vec_len to.old + length (id_of place) ≤ vec_capacity to.old }
    ensures items { to.new.items ≡ to.old.items ++ id_of place }
    ensures len { vec_len to.new ≡ vec_len to.old + length (id_of place) }
    ensures capacity { vec_capacity to.new ≡ vec_capacity to.old }
{
    if place >= ID_BASE {
        to.push_reserved(b'!' + (place % ID_BASE) as u8);
        push_id(to, place / ID_BASE);
    } else {
        to.push_reserved(b'!' + place as u8);
    }
}

// Adds a value in binary, for which there is room.
fn push_binary(to: &mut Vec<u8>, value: u64)
    requires { vec_len to.old + length (binary value) ≤ vec_capacity to.old }
    ensures items { to.new.items ≡ to.old.items ++ binary value }
    ensures len { vec_len to.new ≡ vec_len to.old + length (binary value) }
    ensures capacity { vec_capacity to.new ≡ vec_capacity to.old }
{
    if value >= 2 {
        push_binary(to, value / 2);
        to.push_reserved(b'0' + (value % 2) as u8);
    } else {
        to.push_reserved(b'0' + value as u8);
    }
}

// Adds the line of a variable of one bit and its LF, for which there is room.
fn push_bit_line(to: &mut Vec<u8>, place: usize, value: u64)
    requires fits { value < 2 }
    requires room { vec_len to.old + length (id_of place) + 2 ≤ vec_capacity to.old }
    ensures items { to.new.items ≡ to.old.items ++ (48 + value) ∷ (id_of place ++ 10 ∷ []) }
    ensures len { vec_len to.new ≡ vec_len to.old + length (id_of place) + 2 }
    ensures capacity { vec_capacity to.new ≡ vec_capacity to.old }
{
    to.push_reserved(b'0' + value as u8);
    push_id(to, place);
    to.push_reserved(b'\n');
}

// Adds the line of a variable of several bits and its LF, for which there is room.
fn push_wide_line(to: &mut Vec<u8>, place: usize, value: u64)
    requires { vec_len to.old + length (binary value) + length (id_of place) + 3 ≤ vec_capacity to.old }
    ensures items { to.new.items ≡ to.old.items ++ 98 ∷ (binary value ++ 32 ∷ (id_of place ++ 10 ∷ [])) }
    ensures len { vec_len to.new ≡ vec_len to.old + length (binary value) + length (id_of place) + 3 }
    ensures capacity { vec_capacity to.new ≡ vec_capacity to.old }
{
    to.push_reserved(b'b');
    push_binary(to, value);
    to.push_reserved(b' ');
    push_id(to, place);
    to.push_reserved(b'\n');
}

// Adds the line of a variable and its LF, for which there is room.
pub(crate) fn push_value(to: &mut Vec<u8>, width: Width, place: usize, value: u64)
    requires fits { value < 2 ^ width }
    requires room { vec_len to.old + length (value_line width place value) + 1 ≤ vec_capacity to.old }
    ensures items { to.new.items ≡ to.old.items ++ (value_line width place value ++ 10 ∷ []) }
    ensures len { vec_len to.new ≡ vec_len to.old + length (value_line width place value) + 1 }
    ensures capacity { vec_capacity to.new ≡ vec_capacity to.old }
{
    if width.bits() == 1 {
        push_bit_line(to, place, value);
    } else {
        push_wide_line(to, place, value);
    }
}
