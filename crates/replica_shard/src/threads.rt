//! What may go to another thread, and what threads may share: a line for each type, which doesn't check where one may not.

use crate::shard::{Shard, ShardReader, ShardWriter};
use std::sync::Arc;

fn goes<T: Send>() {}

fn is_shared<T: Sync>() {}

/// A shard is shared by threads, by `&` or in an `Arc`, and each seat may go to a thread of its own.
fn seats_go_to_threads() {
    is_shared::<Shard>();
    goes::<Arc<Shard>>();
    goes::<ShardWriter>();
    goes::<ShardReader>();
}
