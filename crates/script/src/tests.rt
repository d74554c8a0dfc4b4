//! What is told of lines that cannot be read, as lines of one schedule.
use crate::sheets::{LineFault, take_line};
use std::test::Fail;

// Each line with what it should have had, and with nothing if it is taken.
const LINES: [(&str, &str); 37] = [
    ("# nothing", ""),
    ("read 1", "sheet KIND RULE CHOOSER before all else"),
    ("sheet swap majority ledger", "quote or curve"),
    ("read", ""),
    ("sheet quote third ledger", "majority or weighted"),
    (
        "sheet quote weighted 3 1 1 ledger",
        "seven weights, numbers 0 to 100, the first not 0",
    ),
    (
        "sheet quote weighted 0 1 1 0 0 0 0 ledger",
        "seven weights, numbers 0 to 100, the first not 0",
    ),
    ("sheet quote majority council", "ledger or synod"),
    ("sheet quote majority synod", "majority or weighted"),
    ("sheet quote majority ledger 1", "the end of the line"),
    ("sheet quote majority ledger # none", ""),
    ("tables 1 2", "PROPOSALS, a number 0 to 65535"),
    ("tables 65536 1 1", "OPERATIONS, a number 0 to 65535"),
    ("tables 1 x 1", "SLOTS, a number 0 to 65535"),
    ("tables 0 0 65535", ""),
    ("tables 1 1 1", "tables once at most, and before the calls"),
    ("open 256 members 1 content 1 2", "N, a number 0 to 255"),
    ("open 3 1 2 3 content 1 2", "the word members"),
    ("open 3 members 1 256 content 1 2", "M, a number 0 to 255"),
    (
        "open 9 members 1 2 3 4 5 6 7 8 content 1 2",
        "at most seven members",
    ),
    ("open 9 members 1 2 3 4 5 6 7", "the word content"),
    (
        "open 3 members 1 content 2 1",
        "BID and ASK, two numbers 0 to 4294967295, BID at most ASK",
    ),
    ("open 3 members content 1 2 3", "the end of the line"),
    ("open 3 members content 1 2", ""),
    ("read", "NODE, a number 0 to 255"),
    ("regroup 1 members 2 content 1 2", "the end of the line"),
    ("give 1", "the word up"),
    ("work 0 0 0 256", "SET, a number 0 to 255"),
    ("deliver 65536", "SLOT, a number 0 to 65535"),
    ("look -1", "OPERATION, a number 0 to 65535"),
    ("swap 1", "a call, sheet, tables or show"),
    ("show slots", "nodes, operations, frames or proposals"),
    ("show nodes", ""),
    ("read 1", "all calls of a sheet before its first show"),
    ("sheet curve majority ledger", ""),
    (
        "write 1 content 1 2 3",
        "four rates, numbers -2147483648 to 2147483647",
    ),
    ("write 1 content -2147483648 2 3 2147483647", ""),
];

#[test]
fn tells_what_was_expected(rt: HostRuntime) -> Result<(), Fail> {
    let mut sheets = Vec::new(rt.alloc());
    for (line, wanted) in LINES {
        let told = match take_line(rt.alloc(), &mut sheets, line) {
            Ok(()) => format!(in rt.alloc(); "")?,
            Err(LineFault::Unread(expected)) => format!(in rt.alloc(); "{expected}")?,
            Err(LineFault::Memory(error)) => return Err(error.into()),
        };
        assert_eq!(rt; told.as_str(), wanted, "at {line}");
    }
    Ok(())
}
