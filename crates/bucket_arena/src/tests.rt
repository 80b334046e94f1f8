ghost use Rattle.std.specs.Prelude.{◌≡◌, ◌≤◌, ◌<◌, ◌+◌};
ghost use Rattle.bucket_arena.specs.Arena.{item_count};

use crate::Arena;
use std::process::Abort;
use std::test::Fail;

fn sent<T: Send>(value: T) -> T
    ensures { result ≡ value }
{
    value
}

/// Takes, writes over or pushes an item in the bucket and in the list, as the draw says, and compares them.
fn step(
    rt: &impl Abort,
    arena: &mut Arena<u32>,
    list: &mut Vec<u32>,
    bucket: u8,
    draw: u32,
) -> Result<(), Fail>
    requires { item_count arena.old < 100000 }
    ensures { item_count arena.new ≤ item_count arena.old + 1 }
{
    let len = arena.len(bucket);
    assert_eq!(rt; len as usize, list.len());
    if len > 0 && draw % 4 < 2 {
        let place = draw / 4 % len;
        assert!(rt; (place as usize) < list.len());
        if draw % 4 == 0 {
            assert_eq!(rt; arena.take(bucket, place), list.remove(place as usize));
        } else {
            arena.set(bucket, place, draw);
            list[place as usize] = draw;
        }
    } else {
        arena.reserve(1)?;
        arena.push(bucket, draw);
        list.push(draw)?;
    }
    Ok(())
}

/// Whether the arena has the items below `count`, dealt out to the buckets in turn.
fn has_dealt(rt: &impl Abort, arena: &Arena<u32>, count: u32) {
    'buckets: for bucket in 0..=255u8 {
        let mut next = bucket as u32;
        'items: for item in arena.iter(bucket) {
            assert_eq!(rt; item, next, "in bucket {bucket}");
            next = next.saturating_add(256);
        }
        assert!(rt;
            next >= count && next < count.saturating_add(256),
            "in bucket {bucket}"
        );
    }
}

#[test]
fn keeps_its_items_where_a_growth_is_refused(rt: HostRuntime) -> Result<(), Fail> {
    let mut arena = Arena::new(rt.alloc());
    'pushed: for item in 0..600u32 {
        if arena.reserve(1).is_err() {
            has_dealt(&rt, &arena, item);
            arena.reserve(1)?;
        }
        arena.push((item % 256) as u8, item);
    }
    has_dealt(&rt, &arena, 600);
    Ok(())
}

#[test]
fn does_as_256_vectors_do(rt: HostRuntime) -> Result<(), Fail> {
    let mut lists = Vec::new(rt.alloc());
    'lists: for _ in 0..256u16 {
        lists.push(Vec::new(rt.alloc()))?;
    }
    let mut arena = sent(Arena::new(rt.alloc()));
    let mut draw: u32 = 1;
    'steps: for _ in 0..8000u32 {
        draw = draw.wrapping_mul(1664525).wrapping_add(1013904223);
        let bucket = (draw >> 24) as u8;
        step(
            &rt,
            &mut arena,
            &mut lists[bucket as usize],
            bucket,
            draw >> 4,
        )?;
    }
    let mut all = 0usize;
    'compared: for bucket in 0..=255u8 {
        let list = &lists[bucket as usize];
        assert_eq!(rt; arena.len(bucket) as usize, list.len());
        let mut items = arena.iter(bucket);
        'items: for (place, item) in list.iter().enumerate() {
            assert_eq!(rt; items.next(), Some(*item), "in bucket {bucket}");
            assert!(rt; place < arena.len(bucket) as usize);
            assert_eq!(rt; arena.at(bucket, place as u32), *item, "in bucket {bucket}");
        }
        assert_eq!(rt; items.next(), None);
        all = list.len().saturating_add(all);
    }
    assert!(rt; all >= 2000, "only {all} items");
    Ok(())
}
