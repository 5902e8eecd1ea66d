//! The totals are open.

ghost use Rattle.std.specs.Prelude.{◌≡◌, List, ℕ};
ghost use Rattle.mari_lines.specs.declared.line.AmountLine.{AmountLine as AmountLineValue};
ghost use Rattle.mari_lines.specs.declared.line.MoneyLine.{MoneyLine as MoneyLineValue};
ghost use Rattle.mari_publish.specs.Order.{after, after_totals, Steps, Follows};
ghost use Rattle.mari_publish.specs.declared.held.Held.TheVariants as held_as;

use super::step::{FollowFault, go_on, push, refuse};
use crate::held::{Held, Kept};
use crate::publication::Part;
use mari_lines::{AmountLine, Line, MoneyLine};
use mari_units::{Items, MOST_PROVIDERS, MOST_ZONES};
use std::alloc::Global;
use std::mem;

/// A line of the totals, but not the last.
pub fn list_total(
    alloc: Global,
    operators: &mut Items<MoneyLine>,
    providers: &mut Items<AmountLine>,
    line: Line,
) -> Result<(), FollowFault>
    requires { (published unpublished : ℕ) → line ≡ Line.Done published unpublished → ⊥ }
    ensures { Steps (after_totals operators.old providers.old line) (held_as.Totals operators.old providers.old)
        (held_as.Totals operators.new providers.new) result }
{
    match line {
        Line::TotalOperator(operator) => {
            if !providers.as_slice().is_empty() {
                return Err(FollowFault::OutOfOrder);
            }
            if operators.as_slice().len() >= MOST_ZONES {
                return Err(FollowFault::OutOfOrder);
            }
            Ok(push(alloc, operators, operator)?)
        }
        Line::TotalProvider(provider) => {
            if providers.as_slice().len() >= MOST_PROVIDERS {
                return Err(FollowFault::OutOfOrder);
            }
            Ok(push(alloc, providers, provider)?)
        }
        line => {
            drop(line);
            Err(FollowFault::OutOfOrder)
        }
    }
}

/// The last line of a text, with how many runs are published and how many are not.
pub fn close_totals(
    kept: &mut Kept,
    published: u32,
    unpublished: u32,
) -> Result<Option<Part>, FollowFault>
    ensures { (operators : List MoneyLineValue) (providers : List AmountLineValue) → kept.old.held ≡ held_as.Totals operators providers
        → Follows (after kept.old (held_as.Totals operators providers) (Line.Done published unpublished)) kept.old kept.new result }
{
    match mem::replace(&mut kept.held, Held::Done) {
        Held::Totals(operators, providers) => {
            if published != kept.counts.published {
                return refuse(kept, Held::Totals(operators, providers));
            }
            if unpublished != kept.counts.unpublished {
                return refuse(kept, Held::Totals(operators, providers));
            }
            let totals = Part::Totals {
                operators,
                providers,
            };
            go_on(kept, Held::Done, Some(totals))
        }
        held => refuse(kept, held),
    }
}
