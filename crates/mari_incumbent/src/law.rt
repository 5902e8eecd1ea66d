//! The law of the incumbent's rule: the start has it, and each kind of step keeps it.

ghost use Rattle.std.specs.Prelude.{ℕ, ◌<◌, ◌∷◌, max, []};
ghost use mathlib.Core.Option.{none};
ghost use Rattle.atomic_table.specs.Table.{opening, Allows, Splits, Joins, step};
ghost use Rattle.mari_incumbent.specs.declared.rule.View.{View};
ghost use Rattle.mari_incumbent.specs.Rule.{Holds, Looks, Offers, view_of, less_one, one_part, note_of, both_of, nothing};

/// The first number with one seat, which has all parts; one load, one `fetch_max` of a seat with parts, making a seat
/// (with one part, or a note without any), and joining a seat: the first has the rule over the views of all seats, and
/// each other one keeps it.
pub fn rule_is_kept()
    ensures start { (first all : ℕ) → Holds first all (opening (first ∷ []) [] (view_of first all first first all)) }
    ensures look { (first all slots id : ℕ) (v : View) → Allows (Holds first all) slots id (v, []) 0 (λ n. n) (Looks (step slots 0 0 0 none) (v, [])) }
    ensures offer { (first all slots id : ℕ) (v : View) (x : ℕ) → 0 < v.parts
        → Allows (Holds first all) slots id (v, []) 0 (λ n. max n x) (Offers (step slots 0 x 0 none) (v, [])) }
    ensures split { (first all id : ℕ) (v : View) → 1 < v.parts → Splits (Holds first all) id v (less_one v) (one_part v) }
    ensures note { (first all id : ℕ) (v : View) → Splits (Holds first all) id v v (note_of v) }
    ensures join { (first all id : ℕ) (v : View) (other : ℕ) (w : View) → 0 < v.parts → Joins (Holds first all) id v other w (both_of v w) nothing }
{}
