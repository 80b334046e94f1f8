//! A program that measures the table's parts, with fixed seeds.
//!
//! Without words it prints a checksum of each work, the same on every machine. With the word `time` it also says how
//! long each took. With the word `cells` it measures groups rewritten in place, with the word `fibs` finds in a FIB that
//! readers share, and with the word `links` messages through a link, by one thread and by several. With the word `workers`
//! it measures builds by one worker and by several, and with the word `arena` an arena's lists beside vectors. With the
//! word `rows` it reads standard input and counts its rows, and does nothing else.
#![tactic(auto)]

mod arena;
mod building;
mod cells;
mod choosing;
mod elapsed;
mod fibs;
mod finding;
mod keys;
mod links;
mod reading;
mod searching;
mod shards;
mod timing;
mod work;
mod workers;

use std::thread::join;
use std::{env, io};

fn main(rt: HostRuntime) -> io::Result<()> {
    let mut words = env::args(&rt)?;
    let _program = words.next();
    match words.next() {
        None => work::checksums(&rt),
        Some(word) => match word.as_str() {
            "time" => timing::figures(&rt),
            "cells" => {
                cells::figures(&rt)?;
                let Some((table, mut writer)) = cells::opened(rt.alloc())? else {
                    return println!(&rt; "no memory for a table");
                };
                let table = &table;
                // Calls of `join` inside one another: the outer one is proved here alone, where the runtime's type is known.
                let one = table.reader(&mut writer);
                let two = table.reader(&mut writer);
                let three = table.reader(&mut writer);
                let (a, (b, c)) = join(
                    &rt,
                    || cells::looks(&rt, table, one),
                    || cells::two_looks(&rt, table, two, three),
                );
                cells::tell(&rt, "cells_look_of_three", a)?;
                cells::tell(&rt, "cells_look_of_three", b)?;
                cells::tell(&rt, "cells_look_of_three", c)?;
                let one = table.reader(&mut writer);
                let two = table.reader(&mut writer);
                let (((mut writer, published), a), b) = join(
                    &rt,
                    || cells::beside(&rt, table, writer, one),
                    || cells::looks(&rt, table, two),
                );
                cells::tell(&rt, "cells_publish_beside_two", published)?;
                cells::tell(&rt, "cells_look_of_two_beside_a_writer", a)?;
                cells::tell(&rt, "cells_look_of_two_beside_a_writer", b)?;
                let one = table.reader(&mut writer);
                let two = table.reader(&mut writer);
                let three = table.reader(&mut writer);
                let (((_writer, published), a), (b, c)) = join(
                    &rt,
                    || cells::beside(&rt, table, writer, one),
                    || cells::two_looks(&rt, table, two, three),
                );
                cells::tell(&rt, "cells_publish_beside_three", published)?;
                cells::tell(&rt, "cells_look_of_three_beside_a_writer", a)?;
                cells::tell(&rt, "cells_look_of_three_beside_a_writer", b)?;
                cells::tell(&rt, "cells_look_of_three_beside_a_writer", c)
            }
            "fibs" => fibs::figures(&rt),
            "links" => links::figures(&rt),
            "workers" => workers::figures(&rt),
            "arena" => arena::figures(&rt),
            "rows" => reading::count(&rt),
            _ => eprintln!(&rt;
                "bench: no word, or `time`, `cells`, `fibs`, `links`, `workers`, `arena` or `rows`"
            ),
        },
    }
}
