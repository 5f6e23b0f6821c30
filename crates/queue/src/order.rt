// The order by which a queue takes its elements.
// Not Ord: a derived one would compare an entry's numbers and not by its measure, and by hand it is four impls in place of one.
ghost use Rattle.std.specs.Prelude.{◌≡◌, Bool, true};
ghost use Rattle.queue.specs.Linear.{Linear, Apart};

// leb a b: a comes no later than b. The order is total and transitive; elements may tie.
pub trait Order: Copy {
    ghost leb: { Self → Self → Bool };

    // Whether this element comes no later than the other.
    fn no_later(self, other: Self) -> bool
        ensures { result ≡ leb self other };

    ghost linear: { Linear leb };
}

// An order where two elements tie only if they count as the same one, which canon gives.
pub trait Strict: Order {
    ghost canon: { Self → Self };

    ghost apart: { Apart Self.Order.leb canon };
}
