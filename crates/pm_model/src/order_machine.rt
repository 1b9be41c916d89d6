//! The order machine.
ghost use Rattle.std.specs.Prelude.{◌≡◌, ◌↔◌, None, Some, true, IsTrue};
ghost use Rattle.pm_table.specs.Cell.{cell_accepts, IsCell};
ghost use Rattle.pm_model.specs.Settings.{word_at};
ghost use Rattle.pm_model.specs.OrderMachine.{Accept, Take, End, Back, machine_at_start, machine_stepped, CanTake};

use crate::plain::Plain;
use pm_table::Cell;
use std::marker::Model;

/// A job that isn't over.
#[derive(Clone, Copy, Debug, PartialEq, Eq)]
pub enum PendingJob {
    /// An order of a word for a cell.
    Order {
        /// The cell that gets the word.
        cell: Cell,
        /// The word, one that the cell accepts.
        word: u16,
    },
    /// The outputs' words are copied to the store.
    Store,
    /// The outputs' words come back from the store.
    Restore,
}

/// The settings of a converter and its store under nothing but jobs: one job at a time is pending, takes any
/// number of times, and ends. A job is an order of a word for a cell, a store of the outputs' words, or their
/// restore. A slow copy of both ends of the bus, for tests: it has no bytes, pages, packet error codes or
/// passes.
#[derive(Clone, Debug, Drop)]
pub struct OrderMachine {
    start: Plain,
    settings: Plain,
    // The outputs' words, and for WRITE_PROTECT, which isn't stored, its start word.
    store: Plain,
    pending: Option<PendingJob>,
}

impl Model for OrderMachine {
    ghost use Rattle.std.specs.Prelude.{◌≡◌, ℕ};
    ghost use Rattle.pm_model.specs.OrderMachine.{Machine, CanTake};

    ghost Value = { Machine };

    ghost view = { λ m. record {
      start = m.start;
      words = m.settings.words;
      store = m.store.words;
      pending = m.pending;
    } };

    ghost invariant = { λ m. (m.settings.count ≡ m.start.count)
        × (m.store.count ≡ m.start.count)
        × CanTake m.start.count m.pending };
}

impl OrderMachine {
    /// The machine with these settings at its start and in its store, and no job.
    pub fn new(start: Plain) -> OrderMachine
        ensures { result ≡ machine_at_start start }
    {
        OrderMachine {
            settings: start.copied(),
            store: start.copied(),
            start,
            pending: None,
        }
    }

    /// A job is accepted. Asks that none is pending, and of an order that its cell exists and accepts
    /// its word.
    pub fn accept(&mut self, job: PendingJob)
        requires free { self.old.pending ≡ None }
        requires can { CanTake self.old.start.count (Some job) }
        ensures { self.new ≡ machine_stepped self.old (Accept job) }
    {
        self.pending = Some(job);
    }

    /// The pending job takes: an order gives its cell its word, a store copies the outputs' words to the
    /// store, a restore brings them back. Nothing happens if none is pending.
    pub fn take(&mut self)
        ensures { self.new ≡ machine_stepped self.old Take }
    {
        match self.pending {
            Some(PendingJob::Order { cell, word }) => {
                self.settings = self.settings.with(cell, word);
            }
            Some(PendingJob::Store) => self.store.take_outputs(&self.settings),
            Some(PendingJob::Restore) => self.settings.take_outputs(&self.store),
            None => {}
        }
    }

    /// No job is pending any more.
    pub fn end(&mut self)
        ensures { self.new ≡ machine_stepped self.old End }
    {
        self.pending = None;
    }

    /// Each cell gets the word that a restart gives, that of the store. A pending job stays pending.
    pub fn back(&mut self)
        ensures { self.new ≡ machine_stepped self.old Back }
    {
        self.settings = self.store.copied();
    }

    /// Whether there is such a cell.
    pub fn has(&self, cell: Cell) -> bool
        ensures { IsTrue result ↔ IsCell self.now.start.count cell }
    {
        self.start.has(cell)
    }

    /// The word of a cell that exists, one that the cell accepts.
    pub fn word(&self, cell: Cell) -> u16
        requires { IsCell self.now.start.count cell }
        ensures word { result ≡ word_at self.now.words cell }
        ensures accepted { cell_accepts cell result ≡ true }
    {
        self.settings.get(cell)
    }

    /// The word in the store of a cell that exists, one that the cell accepts; for WRITE_PROTECT, which
    /// isn't stored, its start word.
    pub fn stored(&self, cell: Cell) -> u16
        requires { IsCell self.now.start.count cell }
        ensures word { result ≡ word_at self.now.store cell }
        ensures accepted { cell_accepts cell result ≡ true }
    {
        self.store.get(cell)
    }

    /// The job that is pending.
    pub fn pending(&self) -> Option<PendingJob>
        ensures { result ≡ self.now.pending }
    {
        self.pending
    }
}
