//! Why a work ended before its last round.
use lock_table::TagError;
use page_redo::RedoError;
use replica_view::{PublishError, ViewError};
use row_tree::{FindError, PlanError};
use std::alloc::{AllocError, AllocFailed};
use tm_base::{LengthError, NoMemory};
use version_chain::{AddError, VersionError};
use wire_fields::ReadError;

/// Why a work ended before its last round.
#[derive(Clone, Copy)]
pub enum Failure {
    /// Want of memory.
    NoMemory,
    /// What was made for it was refused.
    Refused,
}

impl From<NoMemory> for Failure {
    fn from(_: NoMemory) -> Failure {
        Failure::NoMemory
    }
}

impl From<AllocError> for Failure {
    fn from(_: AllocError) -> Failure {
        Failure::NoMemory
    }
}

impl<T: Drop> From<AllocFailed<T>> for Failure {
    fn from(_: AllocFailed<T>) -> Failure {
        Failure::NoMemory
    }
}

impl From<ReadError> for Failure {
    fn from(error: ReadError) -> Failure {
        match error {
            ReadError::NoMemory => Failure::NoMemory,
            _ => Failure::Refused,
        }
    }
}

impl From<LengthError> for Failure {
    fn from(error: LengthError) -> Failure {
        match error {
            LengthError::NoMemory => Failure::NoMemory,
            _ => Failure::Refused,
        }
    }
}

impl From<AddError> for Failure {
    fn from(error: AddError) -> Failure {
        match error {
            AddError::NoMemory => Failure::NoMemory,
            _ => Failure::Refused,
        }
    }
}

impl From<VersionError> for Failure {
    fn from(error: VersionError) -> Failure {
        match error {
            VersionError::NoMemory => Failure::NoMemory,
            _ => Failure::Refused,
        }
    }
}

impl From<RedoError> for Failure {
    fn from(error: RedoError) -> Failure {
        match error {
            RedoError::NoMemory => Failure::NoMemory,
            _ => Failure::Refused,
        }
    }
}

impl From<FindError> for Failure {
    fn from(error: FindError) -> Failure {
        match error {
            FindError::NoMemory => Failure::NoMemory,
            _ => Failure::Refused,
        }
    }
}

impl From<PlanError> for Failure {
    fn from(error: PlanError) -> Failure {
        match error {
            PlanError::NoMemory => Failure::NoMemory,
            _ => Failure::Refused,
        }
    }
}

impl From<TagError> for Failure {
    fn from(error: TagError) -> Failure {
        match error {
            TagError::Full => Failure::Refused,
            TagError::NoMemory => Failure::NoMemory,
        }
    }
}

impl From<PublishError> for Failure {
    fn from(error: PublishError) -> Failure {
        match error {
            PublishError::NoMemory => Failure::NoMemory,
            _ => Failure::Refused,
        }
    }
}

impl From<ViewError> for Failure {
    fn from(error: ViewError) -> Failure {
        match error {
            ViewError::NoMemory => Failure::NoMemory,
            _ => Failure::Refused,
        }
    }
}
