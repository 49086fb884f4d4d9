// Laws of decisions.
ghost use Rattle.std.specs.Prelude.{◌≡◌, ◌<◌, ◌++◌, ℕ, List, Some, true};
ghost use Rattle.std.specs.List.{AllByRecursion};
ghost use Rattle.desk_requests.specs.Places.{place_of, path_of, has_name};
ghost use Rattle.desk_requests.specs.declared.place.Place.{Place};
ghost use Rattle.desk_requests.specs.Decisions.{Decides, DecidesAtEnd};
ghost use Rattle.desk_requests.specs.declared.decision.Decision.{Decision};
ghost use Rattle.desk_requests.specs.declared.decision.Decision.TheVariants.{Open};

/// What is decided for some bytes is decided for all longer ones, and where these end. An input
/// that
/// has ended has one decision. So a response does not depend on how its request came in pieces.
pub fn decided_for_good()
    ensures stays { (bytes more : List ℕ) (d : Decision) → Decides bytes d → ¬ (d ≡ Open) →
        Decides (bytes ++ more) d }
    ensures ends { (bytes more : List ℕ) (d : Decision) → Decides bytes d → ¬ (d ≡ Open) →
        DecidesAtEnd (bytes ++ more) d }
    ensures one { (bytes : List ℕ) (d e : Decision) → DecidesAtEnd bytes d → DecidesAtEnd bytes e →
        d ≡ e }
{}

/// A target has a place exactly where it is the path of that place, and the name in it is one of a
/// project: `/projects`; or `/projects/`, a name, and nothing, `/report`, `/trees` or `/detail`.
pub fn places_by_their_paths()
    ensures place { (p : Place) → has_name p ≡ true → place_of (path_of p) ≡ Some p }
    ensures path { (target : List ℕ) (p : Place) → AllByRecursion (λ b. b < 256) target →
        place_of target ≡ Some p → target ≡ path_of p }
    ensures named { (target : List ℕ) (p : Place) → place_of target ≡ Some p → has_name p ≡ true }
{}
