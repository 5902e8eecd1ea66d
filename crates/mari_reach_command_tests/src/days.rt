//! Folders, and the days that are printed of them, worked out by hand.

use crate::cases::Folder;

/// A folder and the text of its day, in parts.
pub(crate) struct Day {
    /// The market files.
    pub(crate) folder: Folder,
    /// The text.
    pub(crate) parts: &'static [&'static str],
}

/// Two zones, joined by a border of 50 MW, with a cheap bid in the first, and the demand of 80 MW and a dear bid in the second.
pub(crate) const TWO_ZONES: Folder = Folder {
    zones: "zone,operator\nA,TA\nB,TB\n",
    borders: "from,to,limit,back\nA,B,50,50\n",
    bids: "\
id,provider,zone,quarter,direction,price,least,greatest,kind\n\
a1,P1,A,1,up,20.00,0,100,both\n\
b1,P2,B,1,up,60.00,0,100,both\n",
    runs: "run,quarter,kind,reference\n1,1,scheduled,40.00\n",
    demands: "run,zone,mw,price\n1,B,80,\n",
};

/// The first line of their day.
pub(crate) const TWO_ZONES_HEAD: &str = "mari 2 2025-03-12 96 10000\n";

/// Its block.
pub(crate) const TWO_ZONES_BLOCK: &str = "\
run 1 1 scheduled first
welfare 799712000
zone A 20.00 20.00 20.00 1
zone B 60.00 60.00 60.00 2
border A B 50 500.0000
bid a1 50
bid b1 30
demand 1 80
tree 1
bound 20.00 60.00
operator TA -250.0000 250.0000 -500.0000
operator TB 750.0000 250.0000 500.0000
provider P1 250.0000
provider P2 450.0000
end 1
";

/// Its totals.
pub(crate) const TWO_ZONES_TOTALS: &str = "\
total-operator TA -250.0000 250.0000 -500.0000
total-operator TB 750.0000 250.0000 500.0000
total-provider P1 250.0000
total-provider P2 450.0000
done 1 0
";

/// The text of the two zones' day.
pub(crate) const TWO_ZONES_TEXT: &[&str] = &[TWO_ZONES_HEAD, TWO_ZONES_BLOCK, TWO_ZONES_TOTALS];

/// The day of the two zones.
pub(crate) const TWO_ZONES_DAY: Day = Day {
    folder: TWO_ZONES,
    parts: TWO_ZONES_TEXT,
};

/// The same, cut off in its block.
pub(crate) const CUT_DAY: Day = Day {
    folder: TWO_ZONES,
    parts: &[
        TWO_ZONES_HEAD,
        "run 1 1 scheduled first\nwelfare 799712000\nzone A 20.00 20",
    ],
};

/// No line of it.
pub(crate) const EMPTY_DAY: Day = Day {
    folder: TWO_ZONES,
    parts: &[],
};

/// A bid of up to 40 MW at 10.00 and one of 20 MW or none at 20.00, for a demand of 50 MW: beside the second the first has room
/// left, so that the price is 10.00, at which the second loses.
pub(crate) const PARADOX: Folder = Folder {
    zones: "zone,operator\nZ,T\n",
    borders: "from,to,limit,back\n",
    bids: "\
id,provider,zone,quarter,direction,price,least,greatest,kind\n\
p1,P,Z,1,up,10.00,0,40,both\n\
i1,P,Z,1,up,20.00,20,20,both\n",
    runs: "run,quarter,kind,reference\n1,1,scheduled,40.00\n",
    demands: "run,zone,mw,price\n1,Z,50,\n",
};

/// Its day: the second bid is closed, and 40 MW are worth 99,989.00 euro each at most; or it is open, and 60 MW are too much.
pub(crate) const PARADOX_DAY: Day = Day {
    folder: PARADOX,
    parts: &[
        "\
mari 2 2025-03-12 96 10000
run 1 1 scheduled first
welfare 399956000
zone Z 99999.00 99999.00 99999.00 1
bid p1 40
bid i1 0
demand 1 40
tree 3
branch i1
bound 99999.00
cut out 1
operator T 0.0000 0.0000 0.0000
provider P 999990.0000
end 1
total-operator T 0.0000 0.0000 0.0000
total-provider P 999990.0000
done 1 0
",
    ],
};

/// The same, and a second quarter hour whose one bid has just the 100 MW of its demand, so that its price is open.
pub(crate) const TWO_RUNS: Folder = Folder {
    bids: "\
id,provider,zone,quarter,direction,price,least,greatest,kind\n\
p1,P,Z,1,up,10.00,0,40,both\n\
i1,P,Z,1,up,20.00,20,20,both\n\
q1,Q,Z,2,up,50.00,0,100,both\n",
    runs: "run,quarter,kind,reference\n1,1,scheduled,40.00\n2,2,scheduled,40.00\n",
    demands: "run,zone,mw,price\n1,Z,50,\n2,Z,100,\n",
    ..PARADOX
};

/// Its day where a tree has one item. At 20.00 the first run is worth 40 times 10.00 and 50 times 99,979.00 at most, which is
/// 499,935,000 quarter-cents and 249,947.50 euro more than its welfare.
pub(crate) const TWO_RUNS_DAY: Day = Day {
    folder: TWO_RUNS,
    parts: &[
        "\
mari 2 2025-03-12 96 1
run 1 1 scheduled within 249947.5000
welfare 399956000
zone Z 99999.00 99999.00 99999.00 1
bid p1 40
bid i1 0
demand 1 40
tree 1
bound 20.00
operator T 0.0000 0.0000 0.0000
provider P 999990.0000
end 1
run 2 2 scheduled first
welfare 999490000
zone Z 50.00 50.00 99999.00 1
bid q1 100
demand 1 100
tree 1
bound 50.00
operator T 0.0000 0.0000 0.0000
provider Q 1250.0000
end 2
total-operator T 0.0000 0.0000 0.0000
total-provider P 999990.0000
total-provider Q 1250.0000
done 1 1
",
    ],
};
