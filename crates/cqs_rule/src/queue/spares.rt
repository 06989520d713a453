//! The slots that a pass has spare, as it knows them while the program runs.

ghost use Rattle.std.specs.Prelude.{◌≡◌, ◌<◌, ◌++◌, ◌∷◌, [], length, slice_get, IfSome, IfNone};
ghost use Rattle.cqs_rule.specs.Spares.{spare_list};

/// At most two: a call that draws a number and may owe a resumption then needs no more.
#[derive(Clone, Copy, Drop)]
pub(crate) enum Spares {
    Nothing,
    One(u32),
    Two(u32, u32),
}

impl Spares {
    // How many they are.
    pub(crate) fn count(self) -> u32
        ensures { result ≡ length (spare_list self) }
    {
        match self {
            Spares::Nothing => 0,
            Spares::One(_) => 1,
            Spares::Two(_, _) => 2,
        }
    }

    // The one at this place, the first at 0.
    pub(crate) fn at(self, place: u32) -> Option<u32>
        ensures { result ≡ slice_get (spare_list self) place }
    {
        match (self, place) {
            (Spares::One(slot) | Spares::Two(slot, _), 0) | (Spares::Two(_, slot), 1) => Some(slot),
            _ => None,
        }
    }

    // With one more, the last.
    pub(crate) fn with(self, slot: u32) -> Self
        requires few { length (spare_list self) < 2 }
        ensures { spare_list result ≡ spare_list self ++ slot ∷ [] }
    {
        match self {
            Spares::Nothing => Spares::One(slot),
            Spares::One(first) => Spares::Two(first, slot),
            Spares::Two(_, _) => unreachable!(),
        }
    }

    // The last, and the others.
    pub(crate) fn split_last(self) -> Option<(u32, Self)>
        ensures some { IfSome result
            (λ parts. spare_list self ≡ spare_list parts.1 ++ parts.0 ∷ []) }
        ensures none { IfNone result (spare_list self ≡ []) }
    {
        match self {
            Spares::Nothing => None,
            Spares::One(last) => Some((last, Spares::Nothing)),
            Spares::Two(first, last) => Some((last, Spares::One(first))),
        }
    }
}
