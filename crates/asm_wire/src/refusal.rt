//! Why a line asks for nothing.
ghost use Rattle.std.specs.Prelude.{◌≡◌, Some, IfOk};
ghost use Rattle.asm_wire.specs.Refused.{refusal_in};

use asm_board::Refusal;
use asm_value::Text;
use std::alloc::{AllocError, Global};
use thiserror::Error;

/// Why a line asks for no call that is built.
#[derive(Debug, Drop, Error)]
pub enum WireRefusal {
    /// It isn't UTF-8, or isn't JSON.
    #[error("the line isn't JSON")]
    BadJson,
    /// It is JSON and no request: the key of the first field that is missing or unfit, else of the
    /// least field that such a request doesn't have; empty where it is no object.
    #[error("the request is bad at a field")]
    BadRequest(Text),
    /// It asks for what isn't built.
    #[error("not built")]
    Unbuilt,
    /// Memory ran out. It says nothing of the line.
    #[error("memory ran out")]
    NoMemory,
}

impl From<AllocError> for WireRefusal {
    ghost use Rattle.std.specs.Prelude.{◌≡◌};
    ghost use Rattle.asm_wire.specs.declared.refusal.WireRefusal.TheVariants.{NoMemory};

    ghost from_gives = { λ _ e. e ≡ NoMemory };

    fn from(_error: AllocError) -> WireRefusal {
        WireRefusal::NoMemory
    }
}

impl WireRefusal {
    /// The refusal that a client is told. `AllocError` is want of memory, also where this says so.
    pub fn into_refusal(self, alloc: Global) -> Result<Refusal, AllocError>
        ensures { IfOk result (λ refusal. refusal_in self ≡ Some refusal) }
    {
        match self {
            WireRefusal::BadJson => Ok(Refusal::bad_json(alloc)),
            WireRefusal::BadRequest(key) => Refusal::bad_request(alloc, key.as_str()),
            WireRefusal::Unbuilt => Ok(Refusal::unbuilt(alloc)),
            WireRefusal::NoMemory => Err(AllocError),
        }
    }
}
