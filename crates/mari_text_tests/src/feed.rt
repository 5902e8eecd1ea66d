//! Parts of a day as JSON, both ways.

ghost use Rattle.mari_publish.specs.Ranges.{PartFits};

use crate::same::{same, same_in};
use crate::texts::made;
use mari_feed::{FeedFault, part_text, read_part};
use mari_publish::{Part, block_text, closing_text, head_text};
use mari_units::Memory;
use std::alloc::Global;
use std::test::Fail;

/// A part of a day.
pub(crate) struct Case {
    /// The part as JSON.
    pub json: &'static str,
    /// Its lines in a day's text.
    pub lines: &'static str,
}

pub(crate) const CASES: &[Case] = &[
    // one bid, one demand
    Case {
        json: "{\"budget\":10000,\"date\":\"2025-03-12\",\"quarters\":96}",
        lines: "mari 1 2025-03-12 96 10000\n",
    },
    Case {
        json: "{\"bids\":[{\"id\":\"u1\",\"mw\":60}],\"borders\":[],\"demands\":[60],\"kind\":\"scheduled\",\"operators\":[{\"name\":\"T\",\"net\":0,\"payment\":0,\"rent\":0}],\"providers\":[{\"amount\":300000,\"name\":\"P\"}],\"quarter\":1,\"run\":1,\"tree\":[{\"bound\":[5000]}],\"welfare\":599694000,\"zones\":[{\"area\":1,\"greatest\":5000,\"least\":5000,\"name\":\"Z\",\"price\":5000}]}",
        lines: "run 1 1 scheduled published
welfare 599694000
zone Z 50.00 50.00 50.00 1
bid u1 60
demand 1 60
tree 1
bound 50.00
operator T 0.0000 0.0000 0.0000
provider P 750.0000
end 1
",
    },
    Case {
        json: "{\"operators\":[{\"name\":\"T\",\"net\":0,\"payment\":0,\"rent\":0}],\"providers\":[{\"amount\":300000,\"name\":\"P\"}]}",
        lines: "total-operator T 0.0000 0.0000 0.0000
total-provider P 750.0000
done 0 0
",
    },
    // the rest of what a part may have
    Case {
        json: "{\"kind\":\"direct\",\"nodes\":7,\"quarter\":1,\"run\":2}",
        lines: "run 2 1 direct unpublished 7\n",
    },
    Case {
        json: "{\"bids\":[{\"id\":\"a_1\",\"mw\":50},{\"id\":\"b-1\",\"mw\":0}],\"borders\":[{\"flow\":-50,\"from\":\"A\",\"rent\":-1,\"to\":\"B\"}],\"demands\":[80,0],\"kind\":\"direct\",\"operators\":[{\"name\":\"TA\",\"net\":-200,\"payment\":-100,\"rent\":100}],\"providers\":[{\"amount\":4000000000000000000,\"name\":\"P1\"}],\"quarter\":2,\"run\":3,\"tree\":[\"branch\",{\"cut\":[1,2],\"side\":\"out\"},\"branch\",{\"cut\":[64],\"side\":\"in\"},{\"bound\":[-1000,6000]},{\"at\":[1],\"conflict\":[1,64],\"flows\":[-199998,5],\"mws\":[0,99999]}],\"welfare\":0,\"zones\":[{\"area\":1,\"greatest\":2001,\"least\":-9999900,\"name\":\"A\",\"price\":-1000},{\"area\":2,\"greatest\":9999900,\"least\":6000,\"name\":\"B\",\"price\":6000}]}",
        lines: "run 3 2 direct published
welfare 0
zone A -10.00 -99999.00 20.01 1
zone B 60.00 60.00 99999.00 2
border A B -50 -0.0025
bid a_1 50
bid b-1 0
demand 1 80
demand 2 0
tree 6
branch
cut out 1 2
branch
cut in 64
bound -10.00 60.00
conflict 1 64
at 0.01
flows -199998 5
mws 0 99999
operator TA -0.2500 0.2500 -0.5000
provider P1 10000000000000000.0000
end 3
",
    },
];

/// Other JSON of the head of that day.
const HEADS: &[&str] = &[
    " { \"quarters\" : 96 ,\r\n\t\"date\":\"2025-03-12\" , \"budget\":10000 } ",
    "{\"budget\":1,\"date\":\"x\",\"quarters\":96,\"date\":\"2025-03-12\",\"budget\":10000}",
    "{\"\\u0062udget\":10000,\"date\":\"2025\\u002d03-12\",\"quarters\":96}",
];

/// Values of no part, with a `*` where one of the fields stands.
const NO_PARTS: &[(&str, &str)] = &[
    (
        "*",
        "{}|[]|1|null|true|\"branch\"|{\"nodes\":1}|[{\"nodes\":1}]",
    ),
    (
        "{\"budget\":*,\"date\":\"2025-03-12\",\"quarters\":96}",
        "0|50001|1.0|1e3|-1|-0|\"1\"|null|[1]|4294967297|18446744073709551617",
    ),
    (
        "{\"budget\":1,\"date\":*,\"quarters\":96}",
        "\"2025-3-12\"|\"2025-03-1x\"|\"2025_03_12\"|\"\"|20250312|null",
    ),
    (
        "{\"budget\":1,\"date\":\"2025-03-12\",\"quarters\":96*}",
        ",\"run\":1|,\"A\":1|,\"nodes\":1|,\"operators\":[]",
    ),
    (
        "{\"kind\":*,\"nodes\":1,\"quarter\":1,\"run\":1}",
        "\"Direct\"|\"\"|false|0",
    ),
    (
        "{\"kind\":\"direct\",\"nodes\":1,\"quarter\":1,\"run\":*}",
        "0|1001|[]|{}",
    ),
    (
        "{\"operators\":*,\"providers\":[]}",
        "[]|{}|[0]|[{}]|[{\"name\":\"T\",\"net\":0,\"payment\":0,\"rent\":4000000000000000001}]\
            |[{\"name\":\"T\",\"net\":-4000000000000000001,\"payment\":0,\"rent\":0}]\
            |[{\"name\":\"T U\",\"net\":0,\"payment\":0,\"rent\":0}]|[{\"name\":\"T\",\"net\":0,\"payment\":0}]",
    ),
    (
        "{\"bids\":[],\"borders\":[],\"demands\":[],\"kind\":\"direct\",\"operators\":[{\"name\":\"T\",\"net\":0,\"payment\":0,\"rent\":0}],\"providers\":[],\"quarter\":1,\"run\":1,\"tree\":[*],\"welfare\":0,\"zones\":[{\"area\":1,\"greatest\":0,\"least\":0,\"name\":\"Z\",\"price\":0}]}",
        "|\"Branch\"|{}|{\"bound\":[]}|{\"bound\":[9999901]}|{\"bound\":[0],\"cut\":[1]}\
            |{\"cut\":[0],\"side\":\"in\"}|{\"cut\":[65],\"side\":\"in\"}|{\"cut\":[2,1],\"side\":\"in\"}\
            |{\"cut\":[1,1],\"side\":\"in\"}|{\"cut\":[1],\"side\":\"up\"}|{\"cut\":[],\"side\":\"in\"}\
            |{\"at\":[0],\"conflict\":[1],\"flows\":[199999],\"mws\":[]}\
            |{\"at\":[0],\"conflict\":[1],\"flows\":[],\"mws\":[100000]}\
            |{\"at\":[0],\"conflict\":[],\"flows\":[],\"mws\":[]}|{\"at\":[0],\"conflict\":[1],\"flows\":[]}",
    ),
];

/// What is no JSON.
const NO_JSON: &[&[u8]] = &[
    b"",
    b"{",
    b"{\"nodes\":1",
    b"{\"nodes\":1,}",
    b"{\"nodes\":01}",
    b"{\"nodes\":1} 1",
    b"{nodes:1}",
    b"{\"nodes\":1e999}",
    b"\"\xff\"",
    b"mari 1 2025-03-12 96 10000\n",
];

/// The lines of a part; those of totals with no block.
fn lines_of(alloc: Global, part: &Part) -> Result<Vec<u8>, Memory>
    requires { PartFits part.now }
{
    match part {
        Part::Head {
            date,
            quarters,
            budget,
        } => head_text(alloc, date, *quarters, *budget),
        Part::Block(block) => block_text(alloc, block),
        Part::Totals {
            operators,
            providers,
        } => closing_text(alloc, operators.as_slice(), providers.as_slice(), 0, 0),
    }
}

#[test]
fn a_part_has_one_text_and_is_read_from_it(rt: HostRuntime) -> Result<(), Fail> {
    let alloc = rt.alloc();
    for case in CASES {
        let part = read_part(alloc, case.json.as_bytes())?;
        let json = part_text(alloc, &part)?;
        let lines = lines_of(alloc, &part)?;
        drop(part);
        same(&rt, json.as_slice(), case.json.as_bytes());
        same(&rt, lines.as_slice(), case.lines.as_bytes());
    }
    Ok(())
}

#[test]
fn spaces_escapes_and_the_order_of_keys_are_free(rt: HostRuntime) -> Result<(), Fail> {
    let alloc = rt.alloc();
    for head in HEADS {
        let part = read_part(alloc, head.as_bytes())?;
        let json = part_text(alloc, &part)?;
        drop(part);
        same_in(&rt, head, json.as_slice(), CASES[0].json.as_bytes());
    }
    Ok(())
}

/// Why bytes are no part.
fn fault_of(alloc: Global, bytes: &[u8]) -> Option<FeedFault> {
    match read_part(alloc, bytes) {
        Ok(part) => {
            drop(part);
            None
        }
        Err(fault) => Some(fault),
    }
}

#[test]
fn json_of_no_part_is_reported_as_such(rt: HostRuntime) -> Result<(), Fail> {
    let alloc = rt.alloc();
    for (form, fields) in NO_PARTS {
        for field in fields.split("|") {
            let (before, after) = form.split_once("*").ok_or("no field")?;
            let text = made(alloc, &[(before, 1), (field, 1), (after, 1)])?;
            let fault = fault_of(alloc, text.as_bytes());
            same_in(&rt, text.as_str(), fault, Some(FeedFault::NotAPart));
        }
    }
    Ok(())
}

#[test]
fn what_is_no_json_is_reported_as_such(rt: HostRuntime) -> Result<(), Fail> {
    let alloc = rt.alloc();
    for bytes in NO_JSON {
        assert_eq!(rt;
            fault_of(alloc, bytes),
            Some(FeedFault::NotJson),
            "{bytes:?}"
        );
    }
    let deep = made(alloc, &[("[", 127), ("]", 127)])?;
    same(
        &rt,
        fault_of(alloc, deep.as_bytes()),
        Some(FeedFault::NotAPart),
    );
    let deeper = made(alloc, &[("[", 128), ("]", 128)])?;
    same(
        &rt,
        fault_of(alloc, deeper.as_bytes()),
        Some(FeedFault::NotJson),
    );
    Ok(())
}
