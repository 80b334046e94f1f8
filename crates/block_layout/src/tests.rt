use super::*;

#[test]
fn candidates_of_a_bucket(rt: HostRuntime) {
    for (bucket, groups) in [
        (0, [0, 1, 2, 3]),
        (63, [63, 0, 1, 2]),
        (64, [0, 5, 10, 15]),
        (191, [63, 10, 21, 32]),
        (255, [63, 16, 33, 50]),
    ] {
        for choice in 0..4 {
            assert_eq!(rt;
                candidate(bucket, choice),
                groups[choice as usize],
                "{bucket}, {choice}"
            );
        }
    }
}

/// As many keys in each bucket as in any other: each group gets its first buckets.
#[test]
fn even_buckets_choose_the_first(rt: HostRuntime) {
    for size in [0, 4, 6] {
        let choices = choose(&[size; 256]);
        assert_eq!(rt; choices.bytes(), &[0; 64], "{size} keys in each");
        for bucket in 0..=255 {
            assert_eq!(rt; choices.group(bucket), bucket % 64, "bucket {bucket}");
        }
    }
}

#[test]
fn uneven_buckets_spread(rt: HostRuntime) {
    let mut sizes = [0; 256];
    sizes[0] = 3;
    sizes[64] = 2;
    sizes[128] = 1;
    sizes[192] = 1;
    let choices = choose(&sizes);
    for (bucket, choice, group) in [
        (0, 0, 0),
        (64, 1, 5),
        (128, 1, 11),
        (192, 1, 17),
        (5, 1, 6),
        (11, 1, 12),
    ] {
        assert_eq!(rt; choices.choice(bucket), choice, "bucket {bucket}");
        assert_eq!(rt; choices.group(bucket), group, "bucket {bucket}");
    }
    let bytes = choices.bytes();
    for (at, octet) in [(0, 0x00), (1, 0x04), (16, 0x01), (32, 0x01), (48, 0x01)] {
        assert_eq!(rt; bytes[at], octet, "octet {at}");
    }
}

/// The laws do nothing but be there.
#[test]
fn laws_can_be_called() {
    laws::order_is_by_size(&[6; 256]);
    laws::first_least_is_least();
    laws::choices_are_of_all_buckets(&[6; 256]);
    laws::the_limits_are();
}
