//! The lines of a block as objects.

ghost use Rattle.mari_lines.specs.Ranges.{InRange, IsAmountLine, IsMoneyLine};
ghost use Rattle.mari_lines.specs.declared.line.Line.TheVariants as line;
ghost use Rattle.mari_feed.specs.Values.{zone_value, border_value, bid_value, operator_value, provider_value};

use crate::fault::FeedFault;
use crate::form::{Form, Printed};
use crate::members::Members;
use crate::numbers::{Area, Flow, Megawatts};
use crate::text::{put_end, put_first, put_next};
use mari_publish::{AmountLine, BidLine, BorderLine, MoneyLine, ZoneLine};
use mari_units::{Cents, Memory, Name, Quarters};
use serde_json::Value;
use std::alloc::Global;

impl Printed for ZoneLine {
    type Item = ZoneLine;

    ghost written = { zone_value };

    ghost InItsRange = { λ z. InRange (line.Zone z) };

    fn put(text: &mut Vec<u8>, zone: &ZoneLine) -> Result<(), Memory> {
        put_first::<Area>(text, "area", &zone.area)?;
        put_next::<Cents>(text, "greatest", &zone.greatest)?;
        put_next::<Cents>(text, "least", &zone.least)?;
        put_next::<Name>(text, "name", &zone.name)?;
        put_next::<Cents>(text, "price", &zone.price)?;
        put_end(text)
    }
}

impl Form for ZoneLine {
    fn read(alloc: Global, value: &Value) -> Result<ZoneLine, FeedFault> {
        let mut members = Members::of(value)?;
        let area = members.item::<Area>(alloc, "area")?;
        let greatest = members.item::<Cents>(alloc, "greatest")?;
        let least = members.item::<Cents>(alloc, "least")?;
        let name = members.item::<Name>(alloc, "name")?;
        let price = members.item::<Cents>(alloc, "price")?;
        members.end()?;
        Ok(ZoneLine {
            name,
            price,
            least,
            greatest,
            area,
        })
    }
}

impl Printed for BorderLine {
    type Item = BorderLine;

    ghost written = { border_value };

    ghost InItsRange = { λ b. InRange (line.Border b) };

    fn put(text: &mut Vec<u8>, border: &BorderLine) -> Result<(), Memory> {
        put_first::<Flow>(text, "flow", &border.flow)?;
        put_next::<Name>(text, "from", &border.from)?;
        put_next::<Quarters>(text, "rent", &border.rent)?;
        put_next::<Name>(text, "to", &border.to)?;
        put_end(text)
    }
}

impl Form for BorderLine {
    fn read(alloc: Global, value: &Value) -> Result<BorderLine, FeedFault> {
        let mut members = Members::of(value)?;
        let flow = members.item::<Flow>(alloc, "flow")?;
        let from = members.item::<Name>(alloc, "from")?;
        let rent = members.item::<Quarters>(alloc, "rent")?;
        let to = members.item::<Name>(alloc, "to")?;
        members.end()?;
        Ok(BorderLine {
            from,
            to,
            flow,
            rent,
        })
    }
}

impl Printed for BidLine {
    type Item = BidLine;

    ghost written = { bid_value };

    ghost InItsRange = { λ b. InRange (line.Bid b) };

    fn put(text: &mut Vec<u8>, bid: &BidLine) -> Result<(), Memory> {
        put_first::<Name>(text, "id", &bid.id)?;
        put_next::<Megawatts>(text, "mw", &bid.mw)?;
        put_end(text)
    }
}

impl Form for BidLine {
    fn read(alloc: Global, value: &Value) -> Result<BidLine, FeedFault> {
        let mut members = Members::of(value)?;
        let id = members.item::<Name>(alloc, "id")?;
        let mw = members.item::<Megawatts>(alloc, "mw")?;
        members.end()?;
        Ok(BidLine { id, mw })
    }
}

impl Printed for MoneyLine {
    type Item = MoneyLine;

    ghost written = { operator_value };

    ghost InItsRange = { IsMoneyLine };

    fn put(text: &mut Vec<u8>, operator: &MoneyLine) -> Result<(), Memory> {
        put_first::<Name>(text, "name", &operator.name)?;
        put_next::<Quarters>(text, "net", &operator.net)?;
        put_next::<Quarters>(text, "payment", &operator.payment)?;
        put_next::<Quarters>(text, "rent", &operator.rent)?;
        put_end(text)
    }
}

impl Form for MoneyLine {
    fn read(alloc: Global, value: &Value) -> Result<MoneyLine, FeedFault> {
        let mut members = Members::of(value)?;
        let name = members.item::<Name>(alloc, "name")?;
        let net = members.item::<Quarters>(alloc, "net")?;
        let payment = members.item::<Quarters>(alloc, "payment")?;
        let rent = members.item::<Quarters>(alloc, "rent")?;
        members.end()?;
        Ok(MoneyLine {
            name,
            payment,
            rent,
            net,
        })
    }
}

impl Printed for AmountLine {
    type Item = AmountLine;

    ghost written = { provider_value };

    ghost InItsRange = { IsAmountLine };

    fn put(text: &mut Vec<u8>, provider: &AmountLine) -> Result<(), Memory> {
        put_first::<Quarters>(text, "amount", &provider.amount)?;
        put_next::<Name>(text, "name", &provider.name)?;
        put_end(text)
    }
}

impl Form for AmountLine {
    fn read(alloc: Global, value: &Value) -> Result<AmountLine, FeedFault> {
        let mut members = Members::of(value)?;
        let amount = members.item::<Quarters>(alloc, "amount")?;
        let name = members.item::<Name>(alloc, "name")?;
        members.end()?;
        Ok(AmountLine { name, amount })
    }
}
