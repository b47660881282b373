ghost use Rattle.std.specs.Prelude.{◌≡◌, false, OnOk, OnErr, IsTrue, true};
ghost use Rattle.outside.specs.Fault.{HasCause, Takes};
ghost use Rattle.outside_mem.specs.Failures.{fails_next, with_failing};
ghost use Rattle.outside_mem.specs.Sink.{empty, after_write, Fails};

use crate::schedule::Schedule;
use outside::{Fault, Memory, Sink};
use std::alloc::Global;
use std::marker::Model;

/// A sink in memory, whose writes fail where [`MemSink::fail_call`] says so.
///
/// Its contracts see the bytes that it took, which writes are to fail, and two counts: of writes that failed, and of
/// those among them that found no memory. Each count stays at the last value of a `u64` once it is there.
#[derive(Drop)]
pub struct MemSink {
    text: Vec<u8>,
    schedule: Schedule,
    faults: u64,
    refused: u64,
}

impl Model for MemSink {
    ghost use Rattle.outside_mem.specs.Sink.{Taken};

    ghost Value = { Taken };

    ghost view = { λ s. record { bytes = s.text.items; failures = s.schedule; faults = s.faults; refused = s.refused } };
}

impl MemSink {
    /// A sink that took nothing yet and fails nowhere.
    pub fn new(alloc: Global) -> MemSink
        ensures { result ≡ empty }
    {
        MemSink {
            text: Vec::new(alloc),
            schedule: Schedule::new(alloc),
            faults: 0,
            refused: 0,
        }
    }

    /// The k-th write from now on, counted from 0, fails and appends nothing.
    pub fn fail_call(&mut self, k: u64) -> Result<(), Memory>
        ensures ok { OnOk result (self.new ≡ record self.old { failures = with_failing self.old.failures k }) }
        ensures err { OnErr result (self.new ≡ self.old) }
    {
        self.schedule.fail_call(k)
    }

    /// The bytes that it took, in their order.
    pub fn bytes(&self) -> &[u8]
        ensures { result.now ≡ self.now.bytes }
    {
        &self.text
    }

    /// How many writes found no memory.
    pub fn refused(&self) -> u64
        ensures { result ≡ self.now.refused }
    {
        self.refused
    }
}

impl Sink for MemSink {
    ghost tells = { true };

    ghost taken = { λ s. s.bytes };

    ghost faults = { λ s. s.faults };

    /// Appends all the bytes, or after a fault none of them.
    fn write(&mut self, bytes: &[u8]) -> Result<(), Fault>
        ensures taken { IsTrue true → Takes self.old.bytes bytes.now result self.new.bytes }
        ensures cause { HasCause self.old.faults self.new.faults result }
        ensures passes { OnOk result (fails_next self.old.failures ≡ false) }
        ensures ok { OnOk result (self.new ≡ after_write self.old bytes.now) }
        ensures fails { OnErr result (Fails self.old self.new) }
    {
        if self.schedule.next_fails() {
            self.faults = self.faults.saturating_add(1);
            return Err(Fault);
        }
        match self.text.extend_from_slice(bytes) {
            Ok(()) => Ok(()),
            Err(_) => {
                self.faults = self.faults.saturating_add(1);
                self.refused = self.refused.saturating_add(1);
                Err(Fault)
            }
        }
    }
}
