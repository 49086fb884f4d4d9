//! Examples of lists of multiindices and of binomials, on the types of the KPZ equation.
#![tactic(auto)]

ghost use Rattle.std.specs.Prelude.{◌≡◌, ◌∷◌, []};

use cutting_tables::shifts_below;
use degree_numbers::Multi;
use known_types::kpz_types;
use std::alloc::{AllocError, Global};

/// All shifts by at most 1 in each direction of the equation.
pub fn shifts_by_one(alloc: Global) -> Result<Vec<Multi>, AllocError> {
    let types = kpz_types(alloc)?;
    shifts_below(alloc, &types, 1)
}

#[cfg(test)]
mod tests {
    use super::*;
    use cutting_tables::{choose_of, parts_below};

    fn multi(time: u32, space: u32) -> Multi
        ensures { result.entries ≡ time ∷ space ∷ 0 ∷ 0 ∷ 0 ∷ [] }
    {
        Multi {
            entries: [time, space, 0, 0, 0],
        }
    }

    #[test]
    fn parts_of_a_decoration(rt: HostRuntime) {
        let parts = parts_below(rt.alloc(), &multi(1, 2)).expect(&rt, "memory");
        let all = [
            multi(1, 2),
            multi(1, 1),
            multi(1, 0),
            multi(0, 2),
            multi(0, 1),
            multi(0, 0),
        ];
        assert!(rt; parts.as_slice() == all.as_slice());
    }

    #[test]
    fn shifts_in_two_directions(rt: HostRuntime) {
        let shifts = shifts_by_one(rt.alloc()).expect(&rt, "memory");
        let all = [multi(1, 1), multi(1, 0), multi(0, 1), multi(0, 0)];
        assert!(rt; shifts.as_slice() == all.as_slice());
    }

    #[test]
    fn binomials_of_multiindices(rt: HostRuntime) {
        assert!(rt; choose_of(&multi(2, 1), &multi(1, 3)).value() == Some(12));
        assert!(rt; choose_of(&multi(0, 0), &multi(7, 5)).value() == Some(1));
        assert!(rt; choose_of(&multi(66, 1), &multi(65, 0)).value() == None);
    }
}
