//! What a firing shows of a term, in whatever order.

ghost use Rattle.std.specs.Prelude.{◌≡◌, ◌↔◌, ◌⊎◌, ◌≤◌, ℕ, Contains, IsTrue, IsFalse, List, [], ◌∷◌, slice_get, Some};
ghost use Rattle.std.specs.Ordering.{is_le};
ghost use Rattle.theory_syntax.specs.Value.{Action, Tau, Tick, has_action};
ghost use Rattle.theory_syntax.specs.Process.{Process, Script};
ghost use Rattle.theory_semantics.specs.Meaning.Expansions.{Expansion, Form, IsFired, IsFormOf, offers_cmp, step_cmp};
ghost use Rattle.theory_semantics.specs.Meaning.Offers.{IsAcceptance, IsRising};
ghost use Rattle.theory_semantics.specs.Meaning.Stepping.{Steps};
ghost use Rattle.theory_semantics.specs.Meaning.Transitions.{IsNotStuck, RuleStep};
ghost use Rattle.theory_shapes.specs.ShapeSteps.{IsShown};
ghost use Rattle.theory_search.specs.Acceptances.{AreEnough, IsAcceptanceOfSome, IsWithin, SomeWithin};
ghost use Rattle.csp_rows.specs.declared.numbers.ActionId.{ActionId};
ghost use Rattle.csp_rows.specs.Numbering.{Numbering};
ghost use Rattle.csp_rows.specs.Numbers.{AreAllNumbered};
ghost use Rattle.theory_search.specs.Laws.TauRanks.{AreOfAllTaus, AreOfTaus};
ghost use Rattle.theory_search.specs.Moves.{GoesOn, NodeAccepts};
ghost use Rattle.theory_search.specs.Search.{AllStored, AreDistinctPairs, Done, From, HasNoRoom, IsLawful, IsRowAllowed, IsStored, IsSuccessor, LeadsToNode, NormalForm, Short, Row, Search};
ghost use Rattle.theory_search.specs.TauRanks.{AreTausOf};
ghost use Rattle.theory_rows.specs.Arranged.{arranged};
ghost use Rattle.theory_rows.specs.Bits.{AreActionsBy, AreOffersOf, IsOfferBy, IsOfferOf, Offer, lies_within, some_lies_within};
ghost use Rattle.theory_rows.specs.Enough.{IsEnough, actions_of, least_offers_by, offers_by};
ghost use Rattle.theory_rows.specs.Loose.{IsLoose, IsLooseBatch, IsLooseFormOf, batch_in_order, expansion_in_order, in_order};
ghost use Rattle.theory_search.specs.Batches.{Batch, IsBatch};
ghost use Rattle.theory_search.specs.Plans.{MarkWouldHold};
ghost use Rattle.theory_rows.specs.Sending.{IsKnownAt, IsKnownByThen};
ghost use Rattle.theory_search.specs.Plans.{ComesFirstBut, IsStepSettled};
ghost use Rattle.theory_search.specs.Ranks.{origin_cmp};
ghost use Rattle.theory_rows.specs.Judged.{EnoughAreAllowed, EnoughAreStored, LeastEventIsLeast, LeastOffersAreLeast};

/// What is shown in any order, put in order, is what firing the term gives; and that is one form. So each order stands for
/// one expansion.
pub fn each_order_stands_for_one_form()
    ensures fired { (script : Script) (t : Process) (steps : Steps) (offers : List (List Action))
        → IsShown script t steps offers
        → IsFired script t (arranged step_cmp steps) (arranged offers_cmp offers) }
    ensures one { (script : Script) (t : Process) (steps also : Steps) (offers more : List (List
        Action)) → IsFired script t steps offers → IsFired script t also more
        → (steps ≡ also) × (offers ≡ more) }
    ensures members { (script : Script) (t : Process) (steps : Steps) (offers : List (List Action))
        → IsShown script t steps offers
        → (z : Action × Process) → Contains (arranged step_cmp steps) z ↔ Contains steps z }
{}

/// What a term accepts is told by the actions of its steps, and enough of it by one list at most: tick alone, or all of
/// them.
pub fn acceptances_are_told_by_actions()
    ensures actions { (steps : Steps) → IsRising (actions_of steps) × ((x : Action)
        → IsTrue (has_action (actions_of steps) x) ↔ ((u : Process) × Contains steps (x, u))) }
    ensures shown { (script : Script) (t : Process) (steps : Steps) → IsNotStuck script t
        → ((x : Action) (u : Process) → RuleStep script t x u ↔ Contains steps (x, u))
        → IsShown script t steps (offers_by (actions_of steps)) }
    ensures enough { (script : Script) (t : Process) (steps : Steps) → IsNotStuck script t
        → ((x : Action) (u : Process) → RuleStep script t x u ↔ Contains steps (x, u))
        → IsEnough script t steps (least_offers_by (actions_of steps)) }
    ensures weaker { (script : Script) (t : Process) (steps : Steps) (offers : List (List Action))
        → IsShown script t steps offers → IsEnough script t steps offers }
    ensures tick { (script : Script) (t : Process) (xs : List Action)
        → IsAcceptance script t (Tick ∷ []) → IsAcceptance script t xs
        → IsWithin (Tick ∷ []) xs × IsTrue (is_le (offers_cmp (Tick ∷ []) xs)) }
    ensures one { (script : Script) (t : Process) (xs ys : List Action)
        → (IsAcceptance script t (Tick ∷ []) → ⊥) → IsAcceptance script t xs
        → IsAcceptance script t ys → xs ≡ ys }
{}

/// So a row is judged by its steps in whatever order, and by enough of its acceptances.
pub fn rows_are_judged_in_any_order()
    ensures allowed { (script : Script) (s : Search) → IsLawful script s
        → EnoughAreAllowed script s }
    ensures event { (script : Script) (s : Search) → IsLawful script s
        → LeastEventIsLeast script s }
    ensures offers { (script : Script) (s : Search) → IsLawful script s
        → LeastOffersAreLeast script s }
    ensures stored { (script : Script) (s : Search) → EnoughAreStored script s }
    ensures more { (script : Script) (normal : NormalForm) (node : ℕ) (xs ys : List Action)
        → IsWithin ys xs → NodeAccepts script (Some normal) node ys
        → NodeAccepts script (Some normal) node xs }
    ensures taus { (script : Script) (rows : List Row) (i : ℕ) (r : Row) (steps : Steps) (offers :
        List (List Action)) (places : List ℕ) → AreDistinctPairs rows → slice_get rows i ≡ Some r
        → IsEnough script r.term steps offers → AreOfTaus rows r.node steps places
        → AreOfAllTaus rows r.node steps places → AreTausOf script rows i places }
{}

/// Acceptances are bits, by the numbers of events: one lies within another where its bits do, and a node accepts what one of
/// those that are kept of it lies within.
pub fn acceptances_are_bits()
    ensures steps { (z : Numbering) (ids : List ActionId) (xs : List Action) (o : Offer)
        → AreAllNumbered z.events ids → AreActionsBy z ids xs → IsFalse (has_action xs Tau)
        → IsOfferBy z.events ids o → IsOfferOf z o xs }
    ensures within { (z : Numbering) (a b : Offer) (xs ys : List Action) → IsOfferOf z a xs
        → IsOfferOf z b ys → IsTrue (lies_within a b) ↔ IsWithin xs ys }
    ensures some { (z : Numbering) (o : Offer) (xs : List Action) (kept : List Offer) (lists : List
        (List Action)) → IsOfferOf z o xs → AreOffersOf z kept lists
        → IsTrue (some_lies_within kept o) ↔ SomeWithin lists xs }
    ensures node { (script : Script) (normal : NormalForm) (node : ℕ) (states : List Process) (lists
        : List (List Action)) (xs : List Action) → slice_get normal.states node ≡ Some states
        → AreEnough (IsAcceptanceOfSome script states) lists → SomeWithin lists xs
        ↔ NodeAccepts script (Some normal) node xs }
{}

/// A step need not be sent to a store if it leads to a pair of the level in work or of a level before, which stays so while
/// the level is worked on, or to one whose origin is not after it. A row whose steps are all settled comes first but for
/// what is planned.
pub fn known_steps_need_not_be_sent()
    ensures begun { (script : Script) (s : Search) (plan : List (ℕ × ℕ
        × Action)) (j : ℕ) (r : Row) (x : Action) (u : Process) → AreDistinctPairs s.rows
        → IsKnownByThen s r x u → IsStepSettled script s plan j r x u }
    ensures stays { (s t : Search) (r : Row) (x : Action) (u : Process) → GoesOn s t
        → IsKnownByThen s r x u → IsKnownByThen t r x u }
    ensures lesser { (script : Script) (s : Search) (plan : List (ℕ × ℕ
        × Action)) (j : ℕ) (r : Row) (x : Action) (u : Process) (i : ℕ) (q : Row)
        → AreDistinctPairs s.rows
        → IsKnownAt s r x u i q → IsTrue (is_le (origin_cmp s.rows q.origin (From j x)))
        → IsStepSettled script s plan j r x u }
    ensures all { (script : Script) (s : Search) (plan : List (ℕ × ℕ
        × Action)) (j : ℕ) (r : Row) (steps : Steps) (offers : List (List Action))
        → slice_get s.rows j ≡ Some r
        → IsEnough script r.term steps offers → ((x : Action) (u : Process)
        → Contains steps (x, u) → IsStepSettled script s plan j r x u)
        → AllStored script s r × ComesFirstBut script s plan j }
{}

/// A batch in whatever order stands for one batch of expansions, of the same places and terms. A form that is in order
/// stands for itself.
pub fn batches_in_any_order_stand_for_batches()
    ensures form { (script : Script) (t : Process) (form : Form) → IsLooseFormOf script t form
        → IsFormOf script t (in_order form) }
    ensures exact { (script : Script) (t : Process) (form : Form) → IsFormOf script t form
        → IsLooseFormOf script t form × (in_order form ≡ form) }
    ensures batch { (b : Batch) → IsLooseBatch b → IsBatch (batch_in_order b) }
    ensures entries { (b : Batch) (i : ℕ) (e : Expansion)
        → Contains (batch_in_order b).entries (i, e)
        ↔ ((f : Expansion) × Contains b.entries (i, f) × (expansion_in_order f ≡ e)) }
{}

/// And its marks hold by that: a row leads to the pairs that its steps lead to, is done where they are stored, and short
/// where there is no room.
pub fn marks_hold_in_any_order()
    ensures successors { (script : Script) (normal : NormalForm) (r : Row) (steps : Steps) (offers :
        List (List Action)) (m : ℕ) (u : Process) → IsEnough script r.term steps offers
        → IsSuccessor script (Some normal) r (m, u)
        ↔ ((x : Action) × Contains steps (x, u) × LeadsToNode (Some normal) r.node x m) }
    ensures done { (script : Script) (s : Search) (i : ℕ) (r : Row) (steps : Steps) (offers : List
        (List Action)) → slice_get s.rows i ≡ Some r → r.level ≡ s.level
        → IsEnough script r.term steps offers → IsRowAllowed script s r
        → ((x : Action) (u : Process) → Contains steps (x, u)
        → (m : ℕ) × LeadsToNode s.normal r.node x m × IsStored s.rows m u)
        → MarkWouldHold script s i Done }
    ensures short { (script : Script) (s : Search) (i : ℕ) (r : Row) (steps : Steps) (offers : List
        (List Action)) → slice_get s.rows i ≡ Some r → r.level ≡ s.level
        → IsEnough script r.term steps offers → IsRowAllowed script s r → HasNoRoom script s r
        → MarkWouldHold script s i Short }
{}
