// Scripts that are drawn. What is refused of a script stands in tests/rows.
use osc_script::Script;
use std::test::Fail;

/// Lines 65 to 80 that the rule of docs/FORMATS.md ("Generated scripts") draws from the seed 1, and below the line 65
/// that it draws from other seeds, one for the least and the greatest number of each kind of line. Another program
/// computed them.
const DRAWN: [&str; 16] = [
    "send 2f67312f2a0000002c690000000534cc",
    "pump",
    "send 2362756e646c650000000000000000f5000000102f67322f6e3600002c69000000048c69000000102f673f2f6e3130002c6900000007efbb",
    "send 2f67342f2a0000002c690000000d1920",
    "send 2362756e646c6500000000000000000e000000102f67322f6e3135002c69000000016c94000000102f673f2f6e3500002c690000000722ab",
    "send 2f67362f6e3200002c6900000007847d",
    "send 2f67342f6e3000002c690000000c3191",
    "add /g7/n2",
    "send 2362756e646c650000000000000000c7000000102f67362f6e3130002c6900000006294a000000102f673f2f6e3130002c6900000005cd9c",
    "send 2362756e646c65000000000000000501000000102f67342f6e3130002c69000000065d38000000242362756e646c65000000000000000001000000102f67352f6e3600002c69000000089934",
    "tick 0000000000000131",
    "tick 00000000000004db",
    "pump",
    "send 2362756e646c65000000000000000c9d000000102f67352f6e3800002c690000000536d6000000102f673f2f6e3300002c690000000ac2b7",
    "pump",
    "pump",
];

const FIRST_DRAWN: [(u64, &str); 15] = [
    (17, "add /g1/n4"),
    (10, "remove /g2/n3"),
    (51, "tick 000000000000032d"),
    (13, "tick 0000000000000327"),
    (30, "pump"),
    (16, "pump"),
    (33, "send 2f67312f6e3131002c6900000007561f"),
    (22, "send 2f67362f6e3133002c690000000041bc"),
    (39, "send 2f67372f2a0000002c6900000004aa60"),
    (18, "send 2f67322f2a0000002c690000000f077f"),
    (
        11,
        "send 2362756e646c65000000000000000e85000000102f67372f6e3800002c69000000014e1e000000102f673f2f6e3300002c690000000e5171",
    ),
    (
        14,
        "send 2362756e646c65000000000000000378000000102f67312f6e3133002c6900000003fb65000000102f673f2f6e3131002c69000000078018",
    ),
    (
        31,
        "send 2362756e646c650000000000000004d9000000102f67342f6e3132002c69000000055aa5000000242362756e646c65000000000000000001000000102f67342f6e3135002c6900000009e18b",
    ),
    (
        0,
        "send 2362756e646c6500000000000000070a000000102f67312f6e3400002c690000000caaad000000242362756e646c65000000000000000001000000102f67332f6e3800002c690000000704c7",
    ),
    (u64::MAX, "pump"),
];

/// The first nine lines, which are drawn from nothing.
const FIRST: &str =
    "add /g0/n0\nadd /g1/n0\nadd /g2/n0\nadd /g3/n0\nadd /g4/n0\nadd /g5/n0\nadd /g6/n0\nadd /g7/n0\nadd /g0/n1\n";

#[test]
fn generated_lines_are_those_that_another_program_draws(rt: HostRuntime) -> Result<(), Fail> {
    let alloc = rt.alloc();
    let mut drawn = Vec::new(alloc);
    for line in DRAWN {
        drawn.extend_from_slice(line.as_bytes())?;
        drawn.extend_from_slice(b"\n")?;
    }
    let script = Script::generate(alloc, 1, 80)?;
    assert!(rt; script.as_slice().ends_with(&drawn));
    assert_eq!(rt; script.as_slice().len(), 64 * 11 + drawn.len());
    assert!(rt; script.as_slice().starts_with(FIRST.as_bytes()));
    for (seed, line) in FIRST_DRAWN {
        let script = Script::generate(alloc, seed, 65)?;
        let text = format!(in alloc; "\nadd /g7/n7\n{line}\n")?;
        assert!(rt; script.as_slice().ends_with(text.as_bytes()));
    }
    Ok(())
}
