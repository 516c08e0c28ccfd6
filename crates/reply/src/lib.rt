// The reply of a desk's command: bytes at the start of a room, and whether the command was
// carried out.
//
// Kept: columns and rooms are lent, or arrays of a fixed size: the library and its programs use no heap.

#![tactic(auto)]

ghost use Rattle.std.specs.Prelude.{◌≤◌, length};
ghost use Rattle.reply.specs.Reply.{refused_by, second_refused, Replied};
ghost use Rattle.report.specs.Report.{most_refusal};

use refusal::Refusal;
use report::put_refused;

// The room that every reply is put into.
pub const MOST_REPLY: usize = 1048576;

#[derive(Clone, Copy)]
pub enum Status {
    // The command was carried out.
    Answered,
    // A call turned its input away.
    Refused,
    // A call turned its second input away.
    RefusedSecond,
    // The words are no command.
    Misused,
}

// How many bytes are printed, and the status.
#[derive(Clone, Copy)]
pub struct Reply {
    pub width: usize,
    pub status: Status,
}

// The line of a refusal.
pub fn put_refusal(room: &mut [u8], refusal: Refusal) -> Reply
    requires { most_refusal ≤ length room.old }
    ensures { Replied (refused_by refusal) room.old result room.new }
{
    let width = put_refused(room, refusal);
    Reply {
        width,
        status: Status::Refused,
    }
}

// The line of a refusal of the second input.
pub fn put_second_refusal(room: &mut [u8], refusal: Refusal) -> Reply
    requires { most_refusal ≤ length room.old }
    ensures { Replied (second_refused refusal) room.old result room.new }
{
    let width = put_refused(room, refusal);
    Reply {
        width,
        status: Status::RefusedSecond,
    }
}
