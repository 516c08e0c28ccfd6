// What the text of a table means: its definitions and their theorems are in specs/. Here are the words
// of the measures, as they end the first line, by which the code keeps to it.

#![tactic(auto)]

pub const COST: [u8; 6] = [b' ', b'c', b'o', b's', b't', b'\n'];

pub const GRADE: [u8; 7] = [b' ', b'g', b'r', b'a', b'd', b'e', b'\n'];

// Days has no word.
pub const DAYS: [u8; 1] = [b'\n'];
