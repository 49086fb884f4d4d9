// What callers that ask for the constants of many trees rest on.
ghost use Rattle.std.specs.Prelude.{◌≡◌, ◌+◌, ◌<◌, ◌≤◌, ℕ, if◌then◌else◌, List, [], length, Some, None};
ghost use Rattle.std.specs.Ordering.{is_eq};
ghost use Rattle.ordered_lists.specs.Members.{IsIn};
ghost use Rattle.plain_trees.specs.Plain.{Plain, tree_order};
ghost use Rattle.plain_trees.specs.Degree.{HasTypes};
ghost use Rattle.tree_pool.specs.Content.{Content, IsPooled, IsGrown, tree_at};
ghost use Rattle.extraction_coproduct.specs.Finished.{TablesContent, AreGrown};
ghost use Rattle.antipode_laws.specs.Weighed.{Weighed};
ghost use Rattle.antipode_laws.specs.Constants.{IsConstants};
ghost use Rattle.antipode_laws.specs.Sameness.{AreSameValues};
ghost use Rattle.twisted_antipode.specs.declared.error.AntipodeError.{AntipodeError};
ghost use Rattle.symbol_polys.specs.declared.poly.Poly.{Poly};
ghost use Rattle.twisted_antipode.specs.Values.{IsPolyOf};
ghost use Rattle.twisted_antipode.specs.Counts.{IsCountOf, AreFinishedAmong, unheld_of};
ghost use Rattle.twisted_antipode.specs.Held.{Held, with_held, held_over, IsHeldOver, AreHeldOver, IsExtended, IsConstantRefused};

/// Of constants that are held: where nothing is, no tree has a value; a value that is put in is
/// found. Calls of `constant`, one after the other, hold more and more constants; those over what
/// is held in the end are those over what was held in the beginning, as polynomials with their
/// masses, and so are the refusals.
pub fn constants_laws()
    ensures nothing { (c : Content) (t : Plain) → held_over c [] t ≡ None }
    ensures put { (c : Content) (hs : List Held) (i : ℕ) (w : Weighed) (t : Plain) → IsPooled c →
        AreHeldOver c hs → i < length c.trees → held_over c (with_held hs i w) t
        ≡ (if is_eq (tree_order (tree_at c i) t) then Some w else held_over c hs t) }
    ensures may_be_put { (c : Content) (hs : List Held) (i : ℕ) (w : Weighed) → AreHeldOver c hs →
        IsHeldOver c (i, w) → AreHeldOver c (with_held hs i w) }
    ensures grown { (c d : Content) (hs : List Held) → IsGrown c d → AreHeldOver c hs →
        AreHeldOver d hs × ((t : Plain) → held_over d hs t ≡ held_over c hs t) }
    ensures itself { (c : Content) (hs : List Held) → IsExtended c hs hs }
    ensures twice { (c d : Content) (hs ks ls : List Held) → IsGrown c d → IsPooled d →
        AreHeldOver c hs → AreHeldOver c ks → AreHeldOver d ls → IsExtended c hs ks →
        IsExtended d ks ls → IsExtended d hs ls }
    ensures same { (c : Content) (hs ks : List Held) (a b : Plain → Weighed) → IsExtended c hs ks →
        IsConstants c.types (held_over c hs) a → IsConstants c.types (held_over c ks) b →
        (t : Plain) → HasTypes c.types t → AreSameValues (a t) (b t) }
    ensures value { (c : Content) (hs ks : List Held) (t : Plain) (p : Poly) → IsExtended c hs ks →
        HasTypes c.types t → ((b : Plain → Weighed) → IsConstants c.types (held_over c ks) b →
        IsPolyOf (b t) p) → (a : Plain → Weighed) → IsConstants c.types (held_over c hs) a →
        IsPolyOf (a t) p }
    ensures refusal { (c : Content) (hs ks : List Held) (t : Plain) (e : AntipodeError) →
        IsExtended c hs ks → HasTypes c.types t →
        IsConstantRefused c.types (held_over c ks) t e →
        IsConstantRefused c.types (held_over c hs) t e }
{}

/// Of the coproducts that calls of `constant`, one after the other, finish: they are those of trees
/// of a list that is closed under components, each once, and none of a tree for which something was
/// held in the beginning. So the count of the work rises by at most the number of the others.
pub fn work_laws()
    ensures nothing { (b : TablesContent) (n : ℕ) → IsCountOf b b n n }
    ensures counted { (a b c : TablesContent) (l m n : ℕ) → IsCountOf a b l m → IsCountOf b c m n →
        IsCountOf a c l n }
    ensures finished { (a b c : TablesContent) (hs ks : List Held) (ts : List Plain) →
        AreGrown b c → ((h : Held) → IsIn h hs → IsIn h ks) →
        AreFinishedAmong b.pool hs ts a.finished b.finished →
        AreFinishedAmong c.pool ks ts b.finished c.finished →
        AreFinishedAmong c.pool hs ts a.finished c.finished }
    ensures most { (old new : TablesContent) (hs : List Held) (ts : List Plain)
        (before after : ℕ) → IsPooled new.pool → AreHeldOver new.pool hs →
        IsCountOf old new before after →
        AreFinishedAmong new.pool hs ts old.finished new.finished →
        after ≤ before + length (unheld_of new.pool hs ts) }
{}
