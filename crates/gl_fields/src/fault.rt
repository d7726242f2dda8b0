ghost use Rattle.std.specs.Prelude.{◌≡◌};
ghost use Rattle.gl_fields.specs.declared.fault.DecodeFault.TheVariants.{OutOfMemory};
ghost use Rattle.gl_fields.specs.Putting.{fault_of};

use crate::{Cause, FieldRefusal};
use std::alloc::{AllocError, AllocFailed};

/// Why a payload gives no fields. A field that the map refuses is its cause.
pub enum DecodeFault {
    Undecodable(Cause),
    OutOfMemory,
}

impl From<AllocError> for DecodeFault {
    ghost from_gives = { λ _ e. e ≡ OutOfMemory };

    fn from(_: AllocError) -> Self {
        DecodeFault::OutOfMemory
    }
}

impl<T: Drop> From<AllocFailed<T>> for DecodeFault {
    ghost from_gives = { λ _ e. e ≡ OutOfMemory };

    fn from(_: AllocFailed<T>) -> Self {
        DecodeFault::OutOfMemory
    }
}

impl From<FieldRefusal> for DecodeFault {
    ghost from_gives = { λ refusal e. e ≡ fault_of refusal };

    fn from(refusal: FieldRefusal) -> Self {
        match refusal {
            FieldRefusal::OutOfMemory => DecodeFault::OutOfMemory,
            FieldRefusal::TooManyFields => DecodeFault::Undecodable(Cause::TooManyFields),
            FieldRefusal::BadFieldName | FieldRefusal::TooLarge | FieldRefusal::Reserved => {
                DecodeFault::Undecodable(Cause::TooLarge)
            }
        }
    }
}
