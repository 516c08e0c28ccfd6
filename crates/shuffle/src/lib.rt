// A column of figures laid out byte place by byte place, and laid back.
//
// Kept: columns and rooms are lent, or arrays of a fixed size: the library and its programs use no heap.

#![tactic(auto)]

ghost use Rattle.std.specs.Prelude.{◌≡◌, length};
ghost use Rattle.shuffle.specs.Bytes.{bytes_of};
ghost use Rattle.shuffle.specs.Shuffled.{gathered, outcome, shuffle_outcome, unshuffle_outcome};
ghost use Rattle.shuffle.specs.Places.{spread, Slot};

use refusal::Refusal;

// The bytes of figure i of k, one in each plane.
fn put_bytes_of(figure: u64, i: usize, k: usize, room: &mut [u8])
    requires { Slot i k (length room.old) }
    ensures { room.new ≡ spread k i (bytes_of 8 figure) room.old }
{
    let bytes = figure.to_le_bytes();
    for (p, byte) in bytes.iter().enumerate() {
        room[p * k + i] = *byte;
    }
}

// Figure i of k, from its byte in each plane.
fn figure_at(i: usize, k: usize, bytes: &[u8]) -> u64
    requires { Slot i k (length bytes.now) }
    ensures { result ≡ gathered k bytes.now i }
{
    let mut figure = [0; 8];
    for (p, byte) in figure.iter_mut().enumerate() {
        *byte = bytes[p * k + i];
    }
    u64::from_le_bytes(figure)
}

// All lowest bytes first, then all second bytes, up to the eighth, each time in the column's order;
// or the refusal of a room that is not eight times as long.
pub fn shuffle(own: &[u64], room: &mut [u8]) -> Result<(), Refusal>
    ensures { outcome result room.new ≡ shuffle_outcome own.now room.old }
{
    let k = own.len();
    if room.len() != 8 * k {
        return Err(Refusal::ByteRoom);
    }
    for (i, figure) in own.iter().enumerate() {
        put_bytes_of(*figure, i, k, room);
    }
    Ok(())
}

// The column of which these are the bytes, place by place; or the refusal of bytes that are not eight
// times as many.
pub fn unshuffle(bytes: &[u8], own: &mut [u64]) -> Result<(), Refusal>
    ensures { outcome result own.new ≡ unshuffle_outcome bytes.now own.old }
{
    let k = own.len();
    if bytes.len() != 8 * k {
        return Err(Refusal::ByteRoom);
    }
    for (i, figure) in own.iter_mut().enumerate() {
        *figure = figure_at(i, k, bytes);
    }
    Ok(())
}
