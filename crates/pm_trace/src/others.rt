//! How often codes without a row were carried.

ghost use Rattle.std.specs.Prelude.{◌≡◌, ◌+◌, ◌<◌, ◌≤◌, ◌^◌};

use crate::count_code;
use indexmap::IndexMap;
use std::alloc::{AllocError, Global};
use std::marker::Model;

/// How often each code was carried by packets that are shown by their code and bytes.
#[derive(Debug, Drop)]
pub struct Others {
    codes: IndexMap<u8, u64>,
    total: u64,
}

impl Model for Others {
    ghost use Rattle.std.specs.Prelude.{◌≡◌, List, ℕ};
    ghost use Rattle.pm_trace.specs.Counts.{total_of};

    ghost Value = { List (ℕ × ℕ) };

    ghost view = { λ o. o.codes.entries };

    ghost invariant = { λ o. o.total ≡ total_of o.codes.entries };
}

impl Others {
    ghost use Rattle.std.specs.Prelude.{[], nat_eq, OnErr, OnOk};
    ghost use Rattle.std.specs.Map.{lookup};
    ghost use Rattle.pm_trace.specs.Counts.{one_more, total_of};

    /// None yet. Takes no memory.
    pub fn new(alloc: Global) -> Others
        ensures { result ≡ [] }
    {
        Others {
            codes: IndexMap::new(alloc),
            total: 0,
        }
    }

    /// Counts a code. Takes memory if it is new.
    #[tactic(auto, using(crate::specs::Lemmas::Counts::total_one_more))]
    pub fn count(&mut self, code: u8) -> Result<(), AllocError>
        requires { total_of self.old + 1 < 2 ^ 64 }
        ensures ok { OnOk result (self.new ≡ one_more self.old code) }
        ensures err { OnErr result (self.new ≡ self.old) }
        ensures few { total_of self.new ≤ total_of self.old + 1 }
    {
        count_code(&mut self.codes, code)?;
        self.total += 1;
        Ok(())
    }

    /// How often a code was carried, if it was.
    pub fn of(&self, code: u8) -> Option<u64>
        ensures { result ≡ lookup (nat_eq code) self.now }
    {
        self.codes.get(&code).copied()
    }

    /// How often codes were carried.
    pub fn total(&self) -> u64
        ensures { result ≡ total_of self.now }
    {
        self.total
    }
}
