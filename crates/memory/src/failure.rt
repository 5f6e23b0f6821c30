// Why there is no answer.
ghost use Rattle.std.specs.Prelude.{◌≡◌, alloc_error};
ghost use Rattle.memory.specs.Failures.{told_of};
ghost use Rattle.memory.specs.declared.failure.Failure.TheVariants.{Told, Memory};

use sheet::refusal::Refusal;
use std::alloc::{AllocError, AllocFailed};

#[derive(Drop)]
pub enum Failure<E> {
    // what the user is told
    Told(E),
    // there was no memory
    Memory(AllocError),
}

impl<E: Drop> Failure<E> {
    // What the user is told, where there was memory.
    pub fn told(self) -> Result<E, AllocError>
        ensures { result ≡ told_of self }
    {
        match self {
            Failure::Told(told) => Ok(told),
            Failure::Memory(error) => Err(error),
        }
    }
}

impl From<Refusal> for Failure<Refusal> {
    ghost from_gives = { λ e r. r ≡ Told e };

    fn from(refusal: Refusal) -> Failure<Refusal> {
        Failure::Told(refusal)
    }
}

impl<E> From<AllocError> for Failure<E> {
    ghost from_gives = { λ e r. r ≡ Memory e };

    fn from(error: AllocError) -> Failure<E> {
        Failure::Memory(error)
    }
}

impl<E, T: Drop> From<AllocFailed<T>> for Failure<E> {
    ghost from_gives = { λ _ r. r ≡ Memory alloc_error };

    fn from(error: AllocFailed<T>) -> Failure<E> {
        Failure::Memory(error.into())
    }
}
