//! The results that a call sets, and the room that a caller gives for a text.
ghost use Rattle.std.specs.Prelude.{◌≡◌, ◌≤◌, ◌++◌, drop, length};
ghost use Rattle.bg_c.specs.Rooms.{PutsText};
ghost use Rattle.bg_c.specs.Sets.{Gives, GivesBeside, Sets};
ghost use Rattle.bg_c.specs.Status.{status_code};

use crate::statuses::Status;

/// Puts a text at the front of a room, where it fits.
pub(crate) fn put_front(text: &[u8], room: &mut [u8])
    requires { length text.now ≤ length room.old }
    ensures { room.new ≡ text.now ++ drop (length text.now) room.old }
{
    room[..text.len()].copy_from_slice(text);
}

/// Puts a text at the front of a room where it fits, and sets `needed` to its length in bytes. A
/// text that does not fit is not put, not even a part of it.
pub(crate) fn put(text: &[u8], room: &mut [u8], needed: &mut usize) -> Status
    ensures { PutsText text.now room.old result room.new needed.new }
{
    *needed = text.len();
    if room.len() < text.len() {
        return Status::NoRoom;
    }
    put_front(text, room);
    Status::Ok
}

/// Puts the text that was made into the room, or returns the status that says why there is none.
pub(crate) fn give(made: Result<Vec<u8>, Status>, room: &mut [u8], needed: &mut usize) -> Status
    ensures { Gives made room.old needed.old result room.new needed.new }
{
    match made {
        Ok(text) => put(&text, room, needed),
        Err(why) => why,
    }
}

/// Sets a place to the value that was made, if one was, and returns the number of the status.
pub(crate) fn set<T: Copy>(made: Result<T, Status>, place: &mut T) -> u32
    ensures { Sets made place.old result place.new }
{
    match made {
        Ok(value) => {
            *place = value;
            Status::Ok.code()
        }
        Err(why) => why.code(),
    }
}

/// Puts the text that was made into the room, and sets a place to what goes with it where the text
/// fits; or returns the status that says why there is none.
pub(crate) fn give_beside<T: Copy>(
    made: Result<(T, Vec<u8>), Status>,
    place: &mut T,
    room: &mut [u8],
    needed: &mut usize,
) -> Status
    ensures { GivesBeside made room.old needed.old place.old (status_code result) room.new needed.new place.new }
{
    let (beside, text) = match made {
        Ok(made) => made,
        Err(why) => return why,
    };
    let Status::Ok = put(&text, room, needed) else {
        return Status::NoRoom;
    };
    *place = beside;
    Status::Ok
}
