// Which calls fail.
ghost use Rattle.std.specs.Prelude.{◌≡◌, OnOk, OnErr};
ghost use Rattle.outside_mem.specs.Failures.{no_failures, fails_next, counted, with_failing, stopping_at, passed_write};

use outside::Memory;
use std::alloc::Global;
use std::marker::Model;

/// How many calls were made, the numbers of those that are to fail, and how many writes pass before all calls fail.
#[derive(Drop)]
pub struct Schedule {
    made: u64,
    listed: Vec<u64>,
    passing: Option<u64>,
}

impl Model for Schedule {
    ghost use Rattle.outside_mem.specs.Failures.{Failures};

    ghost Value = { Failures };

    ghost view = { λ s. record { made = s.made; listed = s.listed.items; passing = s.passing } };
}

impl Schedule {
    /// No call was made yet, and none is to fail.
    pub fn new(alloc: Global) -> Self
        ensures { result ≡ no_failures }
    {
        Schedule {
            made: 0,
            listed: Vec::new(alloc),
            passing: None,
        }
    }

    /// The k-th call from now on, counted from 0, is to fail.
    pub fn fail_call(&mut self, k: u64) -> Result<(), Memory>
        ensures ok { OnOk result (self.new ≡ with_failing self.old k) }
        ensures err { OnErr result (self.new ≡ self.old) }
    {
        match self.listed.push(self.made.saturating_add(k)) {
            Ok(()) => Ok(()),
            Err(_) => Err(Memory),
        }
    }

    /// k further writes pass, and then every call is to fail.
    pub fn stop_at_write(&mut self, k: u64)
        ensures { self.new ≡ stopping_at self.old k }
    {
        self.passing = Some(k);
    }

    /// Counts a call, and says whether it fails.
    pub fn next_fails(&mut self) -> bool
        ensures fails { result ≡ fails_next self.old }
        ensures counted { self.new ≡ counted self.old }
    {
        let fails = self.passing == Some(0) || self.listed.as_slice().contains(&self.made);
        self.made = self.made.saturating_add(1);
        fails
    }

    /// Counts a write that passed.
    pub fn pass_write(&mut self)
        ensures { self.new ≡ passed_write self.old }
    {
        if let Some(left) = self.passing {
            self.passing = Some(left.saturating_sub(1));
        }
    }

    /// As if it were new: no call was made yet, and none is to fail.
    pub fn clear(&mut self)
        ensures { self.new ≡ no_failures }
    {
        self.made = 0;
        self.listed.clear();
        self.passing = None;
    }
}
