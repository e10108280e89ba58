//! Refusals as the statuses that calls return.
ghost use Rattle.std.specs.Prelude.{◌≡◌};

use crate::statuses::Status;
use bg_parties::{OpenFault, RoleFault};
use bg_party::ChooseFault;
use bg_referee::DueFault;
use bg_text::TextFault;
use bg_wire::{RestoreRefusal, SaveRefusal, WireFault};
use std::alloc::AllocError;

impl From<AllocError> for Status {
    ghost use Rattle.bg_c.specs.declared.statuses.Status.TheVariants.{Memory};

    ghost from_gives = { λ _ status. status ≡ Memory };

    fn from(_: AllocError) -> Status {
        Status::Memory
    }
}

impl From<WireFault> for Status {
    ghost use Rattle.bg_c.specs.declared.statuses.Status.TheVariants.{NotAPacket};

    ghost from_gives = { λ _ status. status ≡ NotAPacket };

    fn from(_: WireFault) -> Status {
        Status::NotAPacket
    }
}

impl From<TextFault> for Status {
    ghost use Rattle.bg_c.specs.declared.statuses.Status.TheVariants.{NotAnAction};

    ghost from_gives = { λ _ status. status ≡ NotAnAction };

    fn from(_: TextFault) -> Status {
        Status::NotAnAction
    }
}

impl From<RestoreRefusal> for Status {
    ghost use Rattle.bg_c.specs.Answers.{restore_status};

    ghost from_gives = { λ why status. status ≡ restore_status why };

    fn from(why: RestoreRefusal) -> Status {
        match why {
            RestoreRefusal::Damaged => Status::Damaged,
            RestoreRefusal::WrongMatch => Status::WrongMatch,
            RestoreRefusal::Memory => Status::Memory,
        }
    }
}

impl From<OpenFault> for Status {
    ghost use Rattle.bg_c.specs.Answers.{open_status};

    ghost from_gives = { λ why status. status ≡ open_status why };

    fn from(why: OpenFault) -> Status {
        match why {
            OpenFault::LengthOutOfRange => Status::BadArgument,
            OpenFault::Restore(why) => Status::from(why),
        }
    }
}

impl From<RoleFault<DueFault>> for Status {
    ghost use Rattle.bg_c.specs.Answers.{due_status, role_status};

    ghost from_gives = { λ why status. status ≡ role_status due_status why };

    fn from(why: RoleFault<DueFault>) -> Status {
        match why {
            RoleFault::OtherRole => Status::WrongParty,
            RoleFault::Core(DueFault::NothingDue | DueFault::RecordFull) => Status::NotDue,
            RoleFault::Core(DueFault::WordRefused | DueFault::EqualOpening) => Status::WordRefused,
            RoleFault::Core(DueFault::Memory) => Status::Memory,
        }
    }
}

impl From<RoleFault<ChooseFault>> for Status {
    ghost use Rattle.bg_c.specs.Answers.{choose_status, role_status};

    ghost from_gives = { λ why status. status ≡ role_status choose_status why };

    fn from(why: RoleFault<ChooseFault>) -> Status {
        match why {
            RoleFault::OtherRole => Status::WrongParty,
            RoleFault::Core(ChooseFault::NotYourTurn) => Status::NotYourTurn,
            RoleFault::Core(ChooseFault::AlreadyClaimed) => Status::AlreadyClaimed,
            RoleFault::Core(ChooseFault::Illegal(_)) => Status::Illegal,
        }
    }
}

impl From<RoleFault<SaveRefusal>> for Status {
    ghost use Rattle.bg_c.specs.Answers.{role_status, save_status};

    ghost from_gives = { λ why status. status ≡ role_status save_status why };

    fn from(why: RoleFault<SaveRefusal>) -> Status {
        match why {
            RoleFault::OtherRole => Status::WrongParty,
            RoleFault::Core(SaveRefusal::SavesSpent) => Status::SavesSpent,
            RoleFault::Core(SaveRefusal::Memory) => Status::Memory,
        }
    }
}
