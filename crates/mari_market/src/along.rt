//! The ways in which bounds of prices, and areas, spread along borders.

ghost use Rattle.std.specs.Prelude.{IsTrue, ◌↔◌};
ghost use Rattle.mari_market.specs.Along.{LeadsBack, LeadsOn, IsUncongested};

use crate::market::Border;

/// Which way something spreads along borders.
#[derive(Clone, Copy, Debug, Drop, PartialEq, Eq)]
pub enum Along {
    /// To zones whose prices are at least as high: lower bounds spread this way.
    Rising,
    /// To zones whose prices are at least as low: upper bounds spread this way.
    Falling,
    /// Over uncongested borders: price areas spread this way.
    Joined,
}

/// Whether the border has room both ways.
fn is_uncongested(border: &Border, flow: i64) -> bool
    ensures { IsTrue result ↔ IsUncongested border.now flow }
{
    border.has_room_back(flow) && border.has_room_on(flow)
}

impl Along {
    /// Whether the border leads from its first zone to its second.
    pub fn leads_on(self, border: &Border, flow: i64) -> bool
        ensures { IsTrue result ↔ LeadsOn self border.now flow }
    {
        match self {
            Along::Rising => border.has_room_back(flow),
            Along::Falling => border.has_room_on(flow),
            Along::Joined => is_uncongested(border, flow),
        }
    }

    /// Whether the border leads from its second zone to its first.
    pub fn leads_back(self, border: &Border, flow: i64) -> bool
        ensures { IsTrue result ↔ LeadsBack self border.now flow }
    {
        match self {
            Along::Rising => border.has_room_on(flow),
            Along::Falling => border.has_room_back(flow),
            Along::Joined => is_uncongested(border, flow),
        }
    }
}
