//! The laws of what every event and every entry keeps.

ghost use Rattle.std.specs.Prelude.{◌≡◌, ℕ, true, List, Some, None, slice_get, IfSome};
ghost use Rattle.mari_market.specs.declared.finding.Finding.{Finding};
ghost use Rattle.mari_market.specs.SearchTree.{IsLarger};
ghost use Rattle.mari_core.specs.declared.event.Event.{Event};
ghost use Rattle.mari_core.specs.declared.node.NodeState.TheVariants.{Taken};
ghost use Rattle.mari_core.specs.Growth.{Grown, Entry, grown, settling, grown_by, IsAllowed, AreAllowed, IsCutoff, IsGrowth, MaySettle};
ghost use Rattle.mari_core.specs.Machine.{Machine, after, refusal, IsProper, KeepsFacts};
ghost use Rattle.mari_core.specs.Nodes.{state_at};
ghost use Rattle.mari_core.specs.Replay.{after_all, first_refusal, AreProper};

/// Each event that is proper and isn't refused keeps the facts of a search, and so does each list of them.
///
/// Of its tree alone: each entry that is allowed, and each list of them, keeps the facts of a growth, to settle a
/// taken node with a finding is such an entry, and where the mark is on, the search tree is larger than the budget.
/// The call does nothing: its contract is the law.
pub fn facts_are_kept()
    ensures event { (s : Machine) (e : Event) → KeepsFacts s → IsProper s e → refusal s e ≡ None → KeepsFacts (after s e) }
    ensures events { (s : Machine) (events : List Event) → KeepsFacts s → AreProper s events → first_refusal 0 s events ≡ None
        → KeepsFacts (after_all s events) }
    ensures entry { (g : Grown) (e : Entry) → IsGrowth g → IsAllowed g e → IsGrowth (grown g e) }
    ensures entries { (g : Grown) (es : List Entry) → IsGrowth g → AreAllowed g es → IsGrowth (grown_by g es) }
    ensures settle { (g : Grown) (k x cutoff : ℕ) (finding : Finding) → IsGrowth g → IsCutoff g.market cutoff
        → IfSome (slice_get g.nodes x) (MaySettle g.market cutoff finding) → state_at g.nodes x ≡ Some (Taken k) → IsAllowed g (settling g k x cutoff finding) }
    ensures larger { (g : Grown) → IsGrowth g → g.full ≡ true → IsLarger g.market g.budget }
{}
