//! The zones of a cut.

ghost use Rattle.std.specs.Prelude.{◌≡◌, ◌==◌, ◌||◌, ◌<◌, ℕ};
ghost use Rattle.mari_market.specs.Cut.{is_in};
ghost use Rattle.mari_market.specs.Prefix.{opens_in};
ghost use Rattle.mari_reach.specs.Tables.{IsZoneSet};

use mari_units::MOST_ZONES;

/// Zones, and for each zone that there may be whether it is one of them.
#[derive(Drop)]
pub(crate) struct ZoneSet<'z> {
    /// The zones.
    pub(crate) zones: &'z [u32],
    /// A mark for each of them.
    marks: [bool; MOST_ZONES],
}

/// Marks a zone, if there may be one of this number.
fn mark(marks: &mut [bool; MOST_ZONES], zone: u32)
    ensures { (z : ℕ) → z < MOST_ZONES → opens_in marks.new z ≡ (opens_in marks.old z || (zone == z)) }
{
    if (zone as usize) < MOST_ZONES {
        marks[zone as usize] = true;
    }
}

impl<'z> ZoneSet<'z> {
    /// The set of these zones.
    pub(crate) fn of(zones: &'z [u32]) -> Self
        ensures zones { result.zones.now ≡ zones.now }
        ensures set { IsZoneSet result }
    {
        let mut marks = [false; MOST_ZONES];
        for zone in zones {
            mark(&mut marks, *zone);
        }
        ZoneSet { zones, marks }
    }

    /// Whether a zone is one of the set.
    pub(crate) fn has(&self, zone: u32) -> bool
        requires set { IsZoneSet self.now }
        requires zone { zone < MOST_ZONES }
        ensures { result ≡ is_in self.now.zones.now zone }
    {
        self.marks[zone as usize]
    }
}
