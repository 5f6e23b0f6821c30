// Measures of effort: what a derivation weighs, and which of two weights is heavier.
#![tactic(auto)]

pub mod hardest;
pub mod total;
pub mod total_steps;

ghost use Rattle.std.specs.Prelude.{◌≡◌};
ghost use Rattle.measure.specs.Ops.{Ops, Laws};

// The highest cost of a rule; a higher one counts as this one.
pub const COST_LIMIT: u32 = 1_000_000;

// A measure, implemented by its records. A record outside the measure's range counts as heaviest.
pub trait Measure: Copy {
    ghost ops: { Ops Self };

    // The weight than which none is lighter.
    fn nothing() -> Self
        ensures { result ≡ ops.nothing };

    // The heaviest weight.
    fn heaviest() -> Self
        ensures { result ≡ ops.heaviest };

    // The weight of one rule of this cost.
    fn effort(cost: u32) -> Self
        ensures { result ≡ ops.effort cost };

    // The weight of both together.
    fn join(self, other: Self) -> Self
        ensures { result ≡ ops.join self other };

    // Whether this weight is no heavier than the other.
    // Not PartialOrd: a derive would tell records apart that both count as heaviest.
    fn no_heavier(self, other: Self) -> bool
        ensures { result ≡ ops.leb self other };

    ghost lawful: { Laws ops };
}
