use crate::drawing::draw;
use crate::grind_input;
use std::test::Fail;

#[test]
fn begins_as_the_generator_is_known_to(rt: HostRuntime) -> Result<(), Fail> {
    let wanted: [u64; 4] = [
        16_294_208_416_658_607_535,
        7_960_286_522_194_355_700,
        487_617_019_471_545_679,
        17_909_611_376_780_542_444,
    ];
    for (number, value) in wanted.iter().enumerate() {
        assert_eq!(rt; draw(0, number as u32), *value, "draw {number}");
    }
    let rows = grind_input(rt.alloc(), 0)?;
    let first = b"cluster,4,16\nflow,10.0.0.0,123.29.205.175,36724,443,6,3,1,192.168.0.236\n";
    assert!(rt; rows.as_slice().starts_with(first));
    assert_eq!(rt;
        rows.iter().filter(|octet| **octet == b'\n').count(),
        37_487
    );
    Ok(())
}
