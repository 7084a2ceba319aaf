//! What a sum is to be, beside a number.
ghost use Rattle.std.specs.Prelude.{◌≡◌};
ghost use Rattle.prop_linear.specs.Demands.{demand_of};

/// What the predicate says of a sum and a number.
#[derive(Clone, Copy, PartialEq, Eq)]
pub(crate) enum Relation {
    AtMost,
    Equal,
    Different,
}

/// At most the number, more than it, the number, or another.
#[derive(Clone, Copy, PartialEq, Eq)]
pub(crate) enum Demand {
    UpTo,
    Over,
    Exactly,
    Off,
}

/// What a sum is to be, where the relation is to hold, or to fail.
pub(crate) fn demanded(relation: Relation, holds: bool) -> Demand
    ensures { result ≡ demand_of relation holds }
{
    match relation {
        Relation::AtMost => if holds { Demand::UpTo } else { Demand::Over },
        Relation::Equal => if holds { Demand::Exactly } else { Demand::Off },
        Relation::Different => if holds { Demand::Off } else { Demand::Exactly },
    }
}
