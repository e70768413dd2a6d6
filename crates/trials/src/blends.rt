// Blends on small and on damaged operands.
use reckoning::bounds::Bounds;
use reckoning::claims::Claims;
use reckoning::grains::Grains;
use reckoning::rate::Rate;
use reckoning::reckoning::Reckoning;
use std::test::Fail;

#[test]
fn blends_round_outward(rt: HostRuntime) -> Result<(), Fail> {
    let Some(third) = Rate::new(333_333) else {
        return Err(Fail::new("a rate"));
    };
    let u = Grains { lower: 1, upper: 2 };
    let v = Grains { lower: 5, upper: 6 };
    assert_eq!(rt; Bounds::blend(third, u, v), Grains { lower: 2, upper: 4 });
    assert!(rt; Rate::new(1_000_001).is_none());
    Ok(())
}

#[test]
fn damaged_places_are_read_in_range(rt: HostRuntime) -> Result<(), Fail> {
    let Some(even) = Rate::new(500_000) else {
        return Err(Fail::new("a rate"));
    };
    let wild = Grains { lower: 9, upper: 3 };
    let widest = Grains {
        lower: 0,
        upper: 1_000_000_000_000,
    };
    assert_eq!(rt; Bounds::blend(even, wild, wild), widest);
    assert_eq!(rt; Bounds::read(wild), widest);
    assert_eq!(rt; Claims::read(Some(9_999)), Some(256));
    assert_eq!(rt; Claims::blend(even, Some(9_999), None), Some(256));
    assert_eq!(rt; Claims::blend(even, None, Some(256)), Some(256));
    Ok(())
}
