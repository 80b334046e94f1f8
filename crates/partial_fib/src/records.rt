ghost use Rattle.std.specs.Prelude.{◌≡◌, [], length, IsErr, OnOk, OnErr, Some, None};
ghost use Rattle.indexmap.specs.IndexMap.{insert_entry, swap_remove_entry};
ghost use Rattle.flow_types.specs.Key.{number, same_key};
ghost use Rattle.partial_fib.specs.Fib.{with_op, with_record};
ghost use Rattle.delta_codec.specs.Op.{IsPut};
ghost use Rattle.partial_fib.specs.Store.{HasEachKeyOnce, entries_with, record_among};

use delta_codec::FibOp;
use flow_types::{FlowKey, Record};
use indexmap::IndexMap;
use out_of_memory::OutOfMemory;
use std::alloc::{AllocError, Global};
use std::marker::Model;

/// The records of some keys, each found in constant expected time.
#[derive(Drop)]
pub(crate) struct Records {
    of_keys: IndexMap<FlowKey, Record>,
}

impl Model for Records {
    ghost use Rattle.std.specs.Prelude.{List};
    ghost use Rattle.flow_types.specs.declared.key.FlowKey.{FlowKey};
    ghost use Rattle.flow_types.specs.declared.record.Record.{Record};

    ghost Value = { List (FlowKey × Record) };

    ghost view = { λ r. r.of_keys.entries };
}

impl Records {
    /// No records. It takes no memory.
    pub(crate) fn new(alloc: Global) -> Records
        ensures { result ≡ [] }
    {
        Records {
            of_keys: IndexMap::new(alloc),
        }
    }

    /// Puts a record at its key.
    pub(crate) fn put(&mut self, key: FlowKey, info: Record) -> Result<(), OutOfMemory>
        ensures put { OnOk result (record_among self.new ≡ with_record (record_among self.old) (number key) (Some info)) }
        ensures entries { OnOk result (self.new ≡ insert_entry same_key self.old key info) }
        ensures refused { OnErr result (self.new ≡ self.old) }
    {
        self.of_keys.insert(key, info)?;
        Ok(())
    }

    /// Removes a key's record, if it is there. It takes no memory.
    pub(crate) fn remove(&mut self, key: FlowKey)
        ensures removed { record_among self.new ≡ with_record (record_among self.old) (number key) None }
        ensures entries { self.new ≡ swap_remove_entry (same_key key) self.old }
    {
        self.of_keys.swap_remove(&key);
    }

    /// Does what a turn means for the records. Only `Put` takes memory.
    pub(crate) fn change(&mut self, op: FibOp) -> Result<(), OutOfMemory>
        ensures changed { OnOk result (record_among self.new ≡ with_op (record_among self.old) op) }
        ensures entries { OnOk result (self.new ≡ entries_with self.old op) }
        ensures memory { IsErr result → IsPut op }
        ensures refused { OnErr result (self.new ≡ self.old) }
    {
        match op {
            FibOp::Nothing => Ok(()),
            FibOp::Put(key, info) => self.put(key, info),
            FibOp::Drop(key) => {
                self.remove(key);
                Ok(())
            }
        }
    }

    /// How many records there are. It takes no memory.
    pub(crate) fn len(&self) -> usize
        ensures count { result ≡ length self.now }
        ensures once { HasEachKeyOnce self.now }
    {
        self.of_keys.len()
    }

    /// The record at a key. It takes no memory.
    pub(crate) fn find(&self, key: FlowKey) -> Option<Record>
        ensures { result ≡ record_among self.now (number key) }
    {
        self.of_keys.get(&key).copied()
    }
}

impl Clone for Records {
    ghost use Rattle.std.specs.Prelude.{◌≡◌};

    ghost is_clone = { λ records copy. copy ≡ records };

    fn clone(&self) -> Result<Records, AllocError> {
        Ok(Records {
            of_keys: self.of_keys.clone()?,
        })
    }
}
