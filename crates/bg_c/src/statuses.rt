//! The statuses of calls.
ghost use Rattle.std.specs.Prelude.{◌≡◌, IfNone, IfSome};
ghost use Rattle.bg_c.specs.Status.{status_code, status_text};

/// The status that a call returns, `bg_status` of the header, in the order of the numbers.
#[derive(Clone, Copy)]
pub enum Status {
    /// It is done.
    Ok,
    /// The text does not fit into the room.
    NoRoom,
    /// There was no memory.
    Memory,
    /// An argument is out of its range.
    BadArgument,
    /// The handle holds no party.
    NotOpen,
    /// The call is for a party of another role.
    WrongParty,
    /// The bytes are no packet.
    NotAPacket,
    /// The text is no action's.
    NotAnAction,
    /// Neither slot has a saved text, and slot 0 is not empty.
    Damaged,
    /// The saved text in the slots is another party's, or of another match.
    WrongMatch,
    /// No save of this number is under way.
    WrongSave,
    /// 4294967295 saves were made.
    SavesSpent,
    /// Another party acts, or nobody.
    NotYourTurn,
    /// The last claim is not answered yet.
    AlreadyClaimed,
    /// The action does not follow the record.
    Illegal,
    /// The referee has nothing to add, or the record is full.
    NotDue,
    /// The word opens no game.
    WordRefused,
    /// No player is to move.
    NotToMove,
    /// The transcript is refused.
    Refused,
    /// A slot is not empty.
    NotEmpty,
    /// Neither slot has a saved text.
    NothingSaved,
    /// The bytes are no saved text.
    NotASave,
    /// Another call is inside the handle.
    Busy,
    /// The handle was closed.
    Closed,
    /// The handle is a copy, or was moved.
    Copied,
    /// The packet says another sender.
    OtherSender,
    /// The position has no XGID.
    NoXgid,
}

impl Status {
    ghost use Rattle.bg_c.specs.declared.statuses.Status.{Status as AStatus};

    /// Returns its number, from 0.
    pub fn code(self) -> u32
        ensures { result ≡ status_code self }
    {
        match self {
            Status::Ok => 0,
            Status::NoRoom => 1,
            Status::Memory => 2,
            Status::BadArgument => 3,
            Status::NotOpen => 4,
            Status::WrongParty => 5,
            Status::NotAPacket => 6,
            Status::NotAnAction => 7,
            Status::Damaged => 8,
            Status::WrongMatch => 9,
            Status::WrongSave => 10,
            Status::SavesSpent => 11,
            Status::NotYourTurn => 12,
            Status::AlreadyClaimed => 13,
            Status::Illegal => 14,
            Status::NotDue => 15,
            Status::WordRefused => 16,
            Status::NotToMove => 17,
            Status::Refused => 18,
            Status::NotEmpty => 19,
            Status::NothingSaved => 20,
            Status::NotASave => 21,
            Status::Busy => 22,
            Status::Closed => 23,
            Status::Copied => 24,
            Status::OtherSender => 25,
            Status::NoXgid => 26,
        }
    }

    /// Returns the status of a number, or `None` where there is none.
    pub fn of_code(code: u32) -> Option<Status>
        ensures some { IfSome result (λ status. code ≡ status_code status) }
        ensures none { IfNone result ((status : AStatus) → code ≡ status_code status → ⊥) }
    {
        Some(match code {
            0 => Status::Ok,
            1 => Status::NoRoom,
            2 => Status::Memory,
            3 => Status::BadArgument,
            4 => Status::NotOpen,
            5 => Status::WrongParty,
            6 => Status::NotAPacket,
            7 => Status::NotAnAction,
            8 => Status::Damaged,
            9 => Status::WrongMatch,
            10 => Status::WrongSave,
            11 => Status::SavesSpent,
            12 => Status::NotYourTurn,
            13 => Status::AlreadyClaimed,
            14 => Status::Illegal,
            15 => Status::NotDue,
            16 => Status::WordRefused,
            17 => Status::NotToMove,
            18 => Status::Refused,
            19 => Status::NotEmpty,
            20 => Status::NothingSaved,
            21 => Status::NotASave,
            22 => Status::Busy,
            23 => Status::Closed,
            24 => Status::Copied,
            25 => Status::OtherSender,
            26 => Status::NoXgid,
            _ => return None,
        })
    }

    /// Returns its description, in English.
    pub fn text(self) -> &'static str
        ensures { result.now ≡ status_text self }
    {
        match self {
            Status::Ok => "it is done",
            Status::NoRoom => "the text does not fit into the room",
            Status::Memory => "there was no memory",
            Status::BadArgument => "an argument is out of its range",
            Status::NotOpen => "the handle holds no party",
            Status::WrongParty => "the call is for a party of another role",
            Status::NotAPacket => "the bytes are no packet",
            Status::NotAnAction => "the text is no action's",
            Status::Damaged => "neither slot has a saved text, and slot 0 is not empty",
            Status::WrongMatch => {
                "what the slots have saved is another party's, or of another match"
            }
            Status::WrongSave => "no save of this number is under way",
            Status::SavesSpent => "4294967295 saves were made",
            Status::NotYourTurn => "another party acts, or nobody",
            Status::AlreadyClaimed => "the last claim is not answered yet",
            Status::Illegal => "the action does not follow the record",
            Status::NotDue => "the referee has nothing to add, or the record is full",
            Status::WordRefused => "the word opens no game",
            Status::NotToMove => "no player is to move",
            Status::Refused => "the transcript is refused",
            Status::NotEmpty => "a new match wants empty slots, and a slot has something",
            Status::NothingSaved => "the slots have no save to go on from",
            Status::NotASave => "the bytes are no saved text",
            Status::Busy => "another call is inside the handle",
            Status::Closed => "the handle was closed",
            Status::Copied => "the handle is a copy, or was moved after it was opened",
            Status::OtherSender => "the packet says another sender",
            Status::NoXgid => "the position has no XGID",
        }
    }
}
