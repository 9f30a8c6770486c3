ghost use Rattle.std.specs.Prelude.{[], ◌∷◌, cond, nat_lt};
ghost use Rattle.cg_finding.specs.Finding.{finding};

use crate::{Found, Rule, earlier_of, first_in_all, refusal};
use cg_desc::{At, DescFault};
use std::test::Fail;

fn at(byte: u32) -> At {
    At {
        byte,
        line: 1,
        column: 1,
    }
}

fn found(phase: u8, byte: u32, rule: u8, name: &str) -> Found<'_> {
    Found {
        phase,
        rule,
        at: at(byte),
        name,
    }
}

#[test]
fn faults_come_by_phase_place_rule_and_name(rt: HostRuntime) {
    for (first, second) in [
        (found(2, 9, 25, "b"), found(3, 1, 20, "a")),
        (found(2, 1, 25, "b"), found(2, 9, 20, "a")),
        (found(2, 1, 20, "b"), found(2, 1, 25, "a")),
        (found(2, 1, 21, "L_1"), found(2, 1, 21, "L_10")),
        (found(2, 1, 21, "L_10"), found(2, 1, 21, "L_2")),
        (found(2, 1, 21, ""), found(2, 1, 21, "a")),
    ] {
        for merged in [
            earlier_of(Some(first), Some(second)),
            earlier_of(Some(second), Some(first)),
            earlier_of(Some(first), None),
            earlier_of(None, Some(first)),
        ] {
            let Some(merged) = merged else {
                assert!(rt; false);
                return;
            };
            assert_eq!(rt; merged.phase, first.phase);
            assert_eq!(rt; merged.at, first.at);
            assert_eq!(rt; merged.rule, first.rule);
            assert_eq!(rt; merged.name, first.name);
        }
    }
    assert!(rt; earlier_of(None, None).is_none());
}

#[test]
fn refusals_name_their_file(rt: HostRuntime) -> Result<(), Fail> {
    match refusal(rt.alloc(), found(3, 7, 31, "TX"), 4) {
        DescFault::Fault(fault) => {
            assert_eq!(rt; fault.phase, 3);
            assert_eq!(rt; fault.rule, 31);
            assert_eq!(rt; fault.file, 4);
            assert_eq!(rt; fault.at, at(7));
            assert_eq!(rt; fault.name.as_str(), "TX");
            Ok(())
        }
        DescFault::Memory => Err(Fail::from(cg_base::Memory)),
    }
}

/// Widths above a limit, each at its own place.
#[derive(Drop)]
struct IsWide<'r> {
    limit: u32,
    name: &'r str,
}

impl<'r> Rule<'r, u32> for IsWide<'r> {
    ghost faults = { λ rule width. cond (nat_lt rule.limit width) (finding 2 24 (record { byte = width; line = 1; column = 1 }) rule.name.now ∷ []) [] };

    #[tactic(auto, using(crate::proofs::Firsts::firsts))]
    fn first(&self, width: &'r u32) -> Option<Found<'r>> {
        if self.limit < *width {
            Some(Found {
                phase: 2,
                rule: 24,
                at: At {
                    byte: *width,
                    line: 1,
                    column: 1,
                },
                name: self.name,
            })
        } else {
            None
        }
    }
}

#[test]
fn the_first_of_all_items_is_found(rt: HostRuntime) {
    let rule = IsWide {
        limit: 32,
        name: "width",
    };
    for (widths, want) in [([1, 90, 33, 64], Some(33)), ([1, 2, 3, 32], None)] {
        let got = first_in_all(&rule, &widths);
        assert_eq!(rt; got.map(|found| found.at.byte), want);
    }
}
