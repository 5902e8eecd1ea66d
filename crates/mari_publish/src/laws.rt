//! What lines that may follow one another give, for a form of text whose lines stand for some of these.

ghost use Rattle.std.specs.Prelude.{◌≡◌, ◌≤◌, ◌<◌, ◌+◌, ◌^◌, ◌++◌, ◌∷◌, [], ℕ, List, Option, Some, length};
ghost use Rattle.std.specs.List.{AllByRecursion};
ghost use Rattle.mari_lines.specs.Ranges.{InRange};
ghost use Rattle.mari_lines.specs.declared.line.AmountLine.{AmountLine as AnAmountLine};
ghost use Rattle.mari_lines.specs.declared.line.Line.{Line as AnyLine};
ghost use Rattle.mari_lines.specs.declared.line.MoneyLine.{MoneyLine as AMoneyLine};
ghost use Rattle.mari_publish.specs.Lines.{closing_lines_by, full_lines};
ghost use Rattle.mari_publish.specs.Order.{HasRoom, after, after_all, grown, kept_at, nothing_kept};
ghost use Rattle.mari_publish.specs.Pieces.{Gives, with_part};
ghost use Rattle.mari_publish.specs.Ranges.{FullFits, SumsFit};
ghost use Rattle.mari_publish.specs.declared.held.Held.TheVariants as held;
ghost use Rattle.mari_publish.specs.declared.held.Kept.{Kept as AnyKept};
ghost use Rattle.mari_publish.specs.declared.publication.Block.TheVariants as block;
ghost use Rattle.mari_publish.specs.declared.publication.FullBlock.{FullBlock as AFullBlock};
ghost use Rattle.mari_publish.specs.declared.publication.Part.{Part as AnyPart};
ghost use Rattle.mari_publish.specs.declared.publication.Part.TheVariants as part;
ghost use Rattle.mari_publish.specs.declared.publication.Publication.{Publication as ThePublication};
ghost use Rattle.mari_units.specs.declared.limits.TheConstants.{MOST_RUNS};

/// Lines give the parts of a publication, one after the other, and there is room for what is kept after them. The lines of a
/// published block give it, and the closing lines the totals.
///
/// The call does nothing: its contract is the law.
pub fn lines_give()
    ensures nothing { Gives [] [] nothing_kept }
    ensures more { (lines : List AnyLine) (parts : List AnyPart) (old new : AnyKept) (line : AnyLine) (x : Option AnyPart) → Gives lines parts old
        → after old old.held line ≡ Some (new, x) → Gives (lines ++ line ∷ []) (with_part parts x) new }
    ensures room { (lines : List AnyLine) (parts : List AnyPart) (kept : AnyKept) → Gives lines parts kept
        → HasRoom kept.held kept.counts × (kept.counts.published + kept.counts.unpublished ≤ MOST_RUNS) }
    ensures few { (lines : List AnyLine) (parts : List AnyPart) (kept : AnyKept) → AllByRecursion InRange lines → Gives lines parts kept
        → length lines < 2 ^ 31 }
    ensures block { (p : ThePublication) (published unpublished : ℕ) (b : AFullBlock) → FullFits b → published + unpublished < MOST_RUNS
        → after_all p (kept_at held.Between published unpublished) (full_lines b)
        ≡ Some (grown p (Some (part.Block (block.Published b))), kept_at held.Between (published + 1) unpublished) }
    ensures closing { (p : ThePublication) (published unpublished : ℕ) (operators : List AMoneyLine) (providers : List AnAmountLine)
        → SumsFit operators providers
        → after_all p (kept_at held.Between published unpublished) (closing_lines_by operators providers published unpublished)
        ≡ Some (grown p (Some (part.Totals operators providers)), kept_at held.Done published unpublished) }
{}
