// Why a file is refused: the refusal, the field, and the place of the field's first byte.
ghost use Rattle.std.specs.Prelude.{◌≡◌};
ghost use Rattle.file.specs.declared.fault.Cause.TheVariants.{Sheet};
ghost use Rattle.file.specs.Faults.{refusal_of};

use sheet::refusal::Refusal;

#[derive(Clone, Copy)]
pub enum Field {
    // the fact count
    Facts,
    // the target
    Target,
    // the number of rules
    Rules,
    // a rule's head
    Head,
    // the length of a rule's body
    Arity,
    // a fact of a rule's body
    Body,
    // a rule's cost
    Cost,
    // what stands after the last rule
    Tail,
}

#[derive(Clone, Copy)]
pub enum Cause {
    // the bytes are not in the form of a file
    Bytes(Refusal),
    // the sheet refuses what the file says
    Sheet(Refusal),
}

#[derive(Clone, Copy)]
pub struct Fault {
    pub cause: Cause,
    pub field: Field,
    // the place of the field's first byte
    pub place: usize,
}

impl From<Refusal> for Cause {
    ghost from_gives = { λ e r. r ≡ Sheet e };

    fn from(own: Refusal) -> Cause {
        Cause::Sheet(own)
    }
}

impl Cause {
    // The refusal, whosever it is; not From, since ? would then drop whose it is.
    pub fn refusal(self) -> Refusal
        ensures { result ≡ refusal_of self }
    {
        match self {
            Cause::Bytes(refusal) => refusal,
            Cause::Sheet(refusal) => refusal,
        }
    }
}
