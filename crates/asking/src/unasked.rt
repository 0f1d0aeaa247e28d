// Why a line has no answer that could be compared.
ghost use Rattle.asking.specs.declared.unasked.Unasked.TheVariants.{Refused, Memory};
ghost use Rattle.std.specs.Prelude.{◌≡◌};

use refusals::Refusal;
use std::alloc::{AllocError, AllocFailed};

#[derive(Clone, Copy, PartialEq, Eq, Debug)]
pub enum Unasked {
    // it breaks its form
    Form,
    // its question is refused
    Refused(Refusal),
    // there is no memory to answer it in
    Memory,
}

impl From<Refusal> for Unasked {
    ghost from_gives = { λ refusal e. e ≡ Refused refusal };

    fn from(refusal: Refusal) -> Unasked {
        Unasked::Refused(refusal)
    }
}

impl From<AllocError> for Unasked {
    ghost from_gives = { λ _ e. e ≡ Memory };

    fn from(_error: AllocError) -> Unasked {
        Unasked::Memory
    }
}

impl<T: Drop> From<AllocFailed<T>> for Unasked {
    ghost from_gives = { λ _ e. e ≡ Memory };

    fn from(_error: AllocFailed<T>) -> Unasked {
        Unasked::from(AllocError)
    }
}
