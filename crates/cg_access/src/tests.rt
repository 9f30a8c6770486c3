use crate::{ShadowStep, next, reads, shadow};
use cg_desc::SwAccess;
use std::test::Fail;

#[test]
fn a_clear_by_software_loses_to_no_bit_of_hardware(rt: HostRuntime) -> Result<(), Fail> {
    // 1 is written to a field that is 1, in a clock in which hardware writes 1.
    assert_eq!(rt; next(SwAccess::Rw1c, 1, true, false, 1, true, 1, 1), 0);
    // 0 is written to a field that is 0, in a clock in which hardware writes 1.
    assert_eq!(rt; next(SwAccess::Rw1c, 0, true, false, 0, true, 1, 1), 1);
    assert_eq!(rt;
        next(SwAccess::R0w1c, 0xf, true, false, 0x5, false, 0, 4),
        0xa
    );
    assert_eq!(rt;
        next(SwAccess::Rw0c, 0xf, true, false, 0x5, false, 0, 4),
        0x5
    );
    Ok(())
}

#[test]
fn a_set_by_software_wins(rt: HostRuntime) -> Result<(), Fail> {
    assert_eq!(rt; next(SwAccess::Rw1s, 0, true, false, 1, true, 0, 1), 1);
    Ok(())
}

#[test]
fn a_read_clears_and_shows_the_old_value(rt: HostRuntime) -> Result<(), Fail> {
    assert_eq!(rt; next(SwAccess::Rc, 1, false, true, 0, true, 1, 1), 0);
    assert_eq!(rt; reads(SwAccess::Rc, 1), 1);
    assert_eq!(rt; reads(SwAccess::Wo, 1), 0);
    Ok(())
}

#[test]
fn a_field_of_all_bits_is_written(rt: HostRuntime) -> Result<(), Fail> {
    assert_eq!(rt;
        next(SwAccess::Rw, 7, true, false, 0xffff_ffff, true, 9, 32),
        0xffff_ffff
    );
    assert_eq!(rt;
        next(SwAccess::Rw, 7, false, false, 0xffff_ffff, true, 9, 32),
        9
    );
    assert_eq!(rt;
        next(SwAccess::Ro, 7, true, false, 0xffff_ffff, false, 9, 32),
        7
    );
    Ok(())
}

#[test]
fn a_shadowed_register_takes_two_equal_writes(rt: HostRuntime) -> Result<(), Fail> {
    let staged = ShadowStep {
        phase: true,
        commits: false,
        failed: false,
    };
    let committed = ShadowStep {
        phase: false,
        commits: true,
        failed: false,
    };
    let failed = ShadowStep {
        phase: false,
        commits: false,
        failed: true,
    };
    let cleared = ShadowStep {
        phase: false,
        commits: false,
        failed: false,
    };
    // The first write stages, whether or not it is what was staged before.
    assert_eq!(rt; shadow(false, true, false, false), staged);
    assert_eq!(rt; shadow(false, true, false, true), staged);
    assert_eq!(rt; shadow(true, true, false, true), committed);
    assert_eq!(rt; shadow(true, true, false, false), failed);
    // A read between two writes makes the second one the first again.
    assert_eq!(rt; shadow(true, false, true, true), cleared);
    assert_eq!(rt; shadow(true, false, false, true), staged);
    Ok(())
}
