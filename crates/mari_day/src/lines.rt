//! The lines of a ledger: operators and providers, each by its name.

ghost use Rattle.std.specs.Prelude.{◌≡◌, ◌≤◌, ◌<◌, ◌*◌, ◌^◌, IfOk, length, map};
ghost use Rattle.std.specs.List.{All};
ghost use Rattle.mari_units.specs.Names.{IsName};
ghost use Rattle.mari_settle.specs.Conditions.{LineIsWithin};
ghost use Rattle.mari_progress.specs.Money.{amount_line, money_lines_of};

use mari_progress::copied_name;
use mari_publish::{AmountLine, MoneyLine};
use mari_rows::NameIndex;
use mari_settle::OperatorLine;
use mari_units::{MOST_ZONES, Memory, Quarters};
use std::alloc::Global;

/// A line for each operator, by the lines of a ledger.
pub fn money_lines(
    alloc: Global,
    operators: &NameIndex,
    lines: &[OperatorLine],
) -> Result<Vec<MoneyLine>, Memory>
    requires few { length operators.now ≤ MOST_ZONES }
    requires names { All IsName operators.now }
    requires one_each { length lines.now ≡ length operators.now }
    requires small { All (LineIsWithin (10 ^ 30)) lines.now }
    ensures { IfOk result (λ money. money.items ≡ money_lines_of operators.now lines.now) }
{
    let mut money = Vec::with_capacity(alloc, lines.len())?;
    for (operator, line) in lines.iter().enumerate() {
        money.push(MoneyLine {
            name: copied_name(operators, operator as u32),
            payment: line.payment,
            rent: line.rent,
            net: line.net(),
        })?;
    }
    Ok(money)
}

/// A line for each of these providers, by the amounts of a ledger.
pub fn amount_lines(
    alloc: Global,
    providers: &NameIndex,
    places: &[u32],
    amounts: &[Quarters],
) -> Result<Vec<AmountLine>, Memory>
    requires names { All IsName providers.now }
    requires one_each { length amounts.now ≡ length providers.now }
    requires there { All (λ place. place < length providers.now) places.now }
    ensures { IfOk result (λ lines. lines.items ≡ map (amount_line providers.now amounts.now) places.now) }
{
    let mut lines = Vec::with_capacity(alloc, places.len())?;
    for place in places {
        lines.push(AmountLine {
            name: copied_name(providers, *place),
            amount: amounts[*place as usize],
        })?;
    }
    Ok(lines)
}
