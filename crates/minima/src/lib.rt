// Keys, and the first of them, in a tree of least keys: with room for so many keys, a power of 4, the
// keys are the second half of the tree's places, and place i of the first quarter, from 1 on, has the
// least of places 4 i to 4 i + 3, so place 1 the least of all. No key is ever moved, and a tree of few
// keys is short.

#![tactic(auto)]

ghost use Rattle.std.specs.Prelude.{◌≡◌, ◌+◌, ◌*◌, ◌<◌, length};
ghost use Rattle.minima.specs.Minima.{leaves, least_key, least_under, Grouped, lowered, raised};

// In place of a key that is not there.
pub const NONE: u64 = 18446744073709551615;

// The least of the four places under place i.
fn least_under(q: &[u64], i: usize) -> u64
    requires { 4 * i + 3 < length q.now }
    ensures { result ≡ least_under q.now i }
{
    let first = q[4 * i];
    let second = q[4 * i + 1];
    let third = q[4 * i + 2];
    let fourth = q[4 * i + 3];
    first.min(second).min(third.min(fourth))
}

// Key v is lowered to x, where it is above x, and so are the places above it, up to one that is not.
pub fn lower(q: &mut [u64], v: usize, x: u64)
    requires { (Grouped q.old) × (v < leaves q.old) }
    ensures { q.new ≡ lowered q.old v x }
{
    // Kept: the loops climb the tree, from place i to i / 4, and count no index.
    let mut i = q.len() / 2 + v;
    while i > 0 {
        let key = q[i];
        if x >= key {
            return;
        }
        q[i] = x;
        i = i / 4;
    }
}

// Key v is taken out. The least of four is carried up to the place above them, which is none for as
// long as the least of the other three is looked for: so no read waits for a least to be stored.
pub fn raise(q: &mut [u64], v: usize)
    requires { (Grouped q.old) × (v < leaves q.old) }
    ensures { q.new ≡ raised q.old v }
{
    let leaf = q.len() / 2 + v;
    q[leaf] = NONE;
    let mut i = leaf / 4;
    let mut least = least_under(q, i);
    while i > 3 {
        q[i] = NONE;
        let others = least_under(q, i / 4);
        q[i] = least;
        least = least.min(others);
        i = i / 4;
    }
    q[i] = least;
}

// The least key.
pub fn least(q: &[u64]) -> u64
    requires { Grouped q.now }
    ensures { result ≡ least_key q.now }
{
    q[1]
}
