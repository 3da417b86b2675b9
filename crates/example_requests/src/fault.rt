//! Why a request comes to nothing.

use head_parse::ReadHeadFault;
use pingora_cache::storage::StoreFault;
use pingora_cache::{FinishFault, FoundFault, LookUpFault, NoCacheReason};
use std::alloc::AllocError;

/// Why a step of a request is refused.
#[derive(Debug, Drop)]
pub enum Fault {
    /// The look-up.
    LookUp(LookUpFault),
    /// Taking what was found.
    Found(FoundFault),
    /// The beginning of a write, a piece of it, or a step of reading.
    Store(StoreFault),
    /// The finish of a write.
    Finish(FinishFault),
    /// The head of a response.
    Head(ReadHeadFault),
    /// The response isn't kept.
    NotKept(NoCacheReason),
}

impl From<LookUpFault> for Fault {
    fn from(fault: LookUpFault) -> Fault {
        Fault::LookUp(fault)
    }
}

impl From<FoundFault> for Fault {
    fn from(fault: FoundFault) -> Fault {
        Fault::Found(fault)
    }
}

impl From<StoreFault> for Fault {
    fn from(fault: StoreFault) -> Fault {
        Fault::Store(fault)
    }
}

impl From<AllocError> for Fault {
    fn from(_error: AllocError) -> Fault {
        Fault::Store(StoreFault::Memory)
    }
}
