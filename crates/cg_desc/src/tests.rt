ghost use Rattle.std.specs.Prelude.{◌≡◌, IfOk};

use crate::fault_line::phrase;
use crate::{At, DescFault, Fault, fault_text};
use cg_base::{Memory, Text};
use std::alloc::Global;
use std::test::Fail;

const RULES: &str = "\
10 file absent
11 too large
12 not UTF-8
15 not a document
16 too deep
20 duplicate key
21 missing key
22 wrong kind
24 not a number
25 bad name
26 outside the profile
27 not built yet
30 bad bits
31 fields overlap
32 reset value too wide
33 no fields or items
34 name twice
35 unknown regwen
36 bad regwen
37 bad count
38 too many
39 skip back
40 bad window
41 past the end
42 too many interrupt bits
50 node twice
51 unknown node
52 host without device
53 device without host
54 bad range
55 ranges overlap
56 crossbars in a circle
57 bad space
60 name twice
62 base missing
63 bad clock
64 bad reset
65 bad pin
66 too many sources
70 generated names clash
";

#[test]
fn each_rule_has_its_phrase(rt: HostRuntime) -> Result<(), Fail> {
    let mut rules = String::new(rt.alloc());
    for rule in 0..100 {
        let phrase = phrase(rule);
        if !phrase.is_empty() {
            writeln!(rules, "{rule} {phrase}")?;
        }
    }
    assert_eq!(rt; rules.as_str(), RULES);
    Ok(())
}

fn fault(alloc: Global, rule: u8, line: u32, column: u32, name: &str) -> Result<Fault, Memory>
    ensures { IfOk result (λ fault. fault.rule ≡ rule) }
{
    Ok(Fault {
        phase: 2,
        rule,
        file: 0,
        at: At {
            byte: 0,
            line,
            column,
        },
        name: Text::of(alloc, name)?,
    })
}

#[test]
fn lines_are_spelled(rt: HostRuntime) -> Result<(), Fail> {
    let alloc = rt.alloc();
    let line = fault_text(alloc, &fault(alloc, 10, 1, 1, "")?, "e.hjson")?;
    assert_eq!(rt; line.as_str(), "e.hjson:1:1: fault 10: file absent");
    let line = fault_text(alloc, &fault(alloc, 15, 1, 1, "")?, "e.hjson")?;
    assert_eq!(rt; line.as_str(), "e.hjson:1:1: fault 15: not a document");
    let line = fault_text(alloc, &fault(alloc, 21, 1, 1, "bus_interfaces")?, "e.hjson")?;
    assert_eq!(rt;
        line.as_str(),
        "e.hjson:1:1: fault 21: missing key: bus_interfaces"
    );
    let line = fault_text(alloc, &fault(alloc, 33, 5, 16, "")?, "gpio1.hjson")?;
    assert_eq!(rt;
        line.as_str(),
        "gpio1.hjson:5:16: fault 33: no fields or items"
    );
    let line = fault_text(alloc, &fault(alloc, 21, 1, 1, "clocks")?, "two.hjson")?;
    assert_eq!(rt;
        line.as_str(),
        "two.hjson:1:1: fault 21: missing key: clocks"
    );
    Ok(())
}

#[test]
fn earlier_faults_are_before_later_ones(rt: HostRuntime) -> Result<(), Fail> {
    let alloc = rt.alloc();
    let first = fault(alloc, 21, 1, 1, "a")?;
    let second = fault(alloc, 21, 9, 9, "ab")?;
    assert!(rt; first.before(&second));
    assert!(rt; !second.before(&first));
    assert_ne!(rt; first, second);
    assert_ne!(rt; DescFault::Fault(first), DescFault::from(Memory));
    Ok(())
}
