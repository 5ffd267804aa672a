//! A kernel with the journal of all its steps.

ghost use Rattle.std.specs.Prelude.{◌≡◌, ◌≤◌, ◌+◌, [], length, slice_get, option_copied, Some, IfOk, IfErr, OnOk, IsOk};
ghost use Rattle.std.specs.Option.{option_map};
ghost use Rattle.kernel_types.specs.History.{Legal};
ghost use Rattle.kernel_types.specs.Limits.{resumes_client, room_of};
ghost use Rattle.kernel_log.specs.Logs.{facts_along, state_of, made_by, Wrote, StaysSame};
ghost use Rattle.kernel_log.specs.Spares.{Holds};

use crate::journal::Journal;
use crate::spare::Spare;
use kernel_types::values::{Answer, Event, NoMemory, Recorded};
use kernel_types::{IpcKernel, StepCause, StepRefused};
use std::alloc::Global;
use std::marker::Model;
use std::snapshot::Snapshot;

/// A kernel that keeps the history of its steps since it was wrapped. That history is legal from the
/// kernel's state then, and the kernel stands at its end.
#[derive(Drop)]
pub struct Logged<K: IpcKernel + Drop> {
    kernel: K,
    journal: Journal,
    opened: Snapshot<K>,
    alloc: Global,
}

impl<K: IpcKernel + Drop> Model for Logged<K> {
    ghost use Rattle.std.specs.Prelude.{[]};
    ghost use Rattle.kernel_log.specs.Logs.{Log, Sound};

    ghost Value = { Log };

    ghost view = { λ l. record {
      origin = record { state = K.state l.opened.value; scripts = []; made = K.made l.opened.value };
      journal = l.journal;
    } };

    ghost invariant = { λ l. Sound (record {
      origin = record { state = K.state l.opened.value; scripts = []; made = K.made l.opened.value };
      journal = l.journal;
    }) (K.state l.kernel) (K.made l.kernel) };
}

/// Where a step was written, and what it answered.
#[derive(Debug, Drop)]
pub struct Receipt {
    /// The place of the step's entry in the journal, counted from 0.
    pub place: u64,
    /// A copy of the entry's answer.
    pub answer: Answer,
}

impl<K: IpcKernel + Drop> Logged<K> {
    /// Wraps a kernel; the journal is empty.
    pub fn new(alloc: Global, kernel: K) -> Logged<K>
        ensures state { result.origin.state ≡ K.state kernel }
        ensures made { result.origin.made ≡ K.made kernel }
        ensures scripts { result.origin.scripts ≡ [] }
        ensures entries { result.journal.entries ≡ [] }
        ensures facts { result.journal.facts ≡ [] }
    {
        let opened = Snapshot::of(&kernel);
        Logged {
            kernel,
            journal: Journal::new(alloc),
            opened,
            alloc,
        }
    }

    /// The entries of all steps since the kernel was wrapped, with the facts after each.
    pub fn journal(&self) -> &Journal
        ensures { result.now ≡ self.now.journal }
    {
        &self.journal
    }

    /// The kernel, which stands at the end of the history.
    pub fn kernel(&self) -> &K
        ensures state { K.state result.now ≡ state_of self.now }
        ensures made { K.made result.now ≡ made_by self.now }
    {
        &self.kernel
    }

    pub fn into_kernel(self) -> K
        ensures state { K.state result ≡ state_of self }
        ensures made { K.made result ≡ made_by self }
    {
        let Logged {
            kernel,
            journal: _,
            opened: _,
            alloc: _,
        } = self;
        kernel
    }

    /// What the type keeps: the journal is a legal history from the origin, and its facts are those of
    /// the states after its entries.
    pub fn legal(&self)
        ensures legal { Legal self.now.origin.state self.now.journal.entries }
        ensures facts { self.now.journal.facts ≡ facts_along self.now.origin.state self.now.journal.entries }
    {
        let _ = &self.journal;
    }

    /// The answer of the step at the place `k`, where there is one.
    pub fn answer(&self, k: u64) -> Option<&Answer>
        ensures { option_copied result ≡ option_map (λ entry. entry.answer) (slice_get self.now.journal.entries k) }
    {
        match self.journal.entry(k) {
            Some(entry) => Some(&entry.answer),
            None => None,
        }
    }

    /// Reserves places for `n` more steps; it is not refused where they are reserved already.
    pub fn reserve(&mut self, n: usize) -> Result<(), NoMemory>
        ensures origin { self.new.origin ≡ self.old.origin }
        ensures entries { self.new.journal.entries ≡ self.old.journal.entries }
        ensures facts { self.new.journal.facts ≡ self.old.journal.facts }
        ensures room { self.old.journal.room ≤ self.new.journal.room }
        ensures ok { OnOk result (n ≤ self.new.journal.room) }
        ensures succeeds { n ≤ self.old.journal.room → IsOk result }
    {
        self.journal.reserve(n)
    }

    /// Makes a step of the kernel and writes its entry. The entry's place and the room for a copy of
    /// the answer are taken first, so that after the kernel's step nothing is refused. Refused, the
    /// event comes back and all stands as before.
    #[tactic(auto, using(crate::proofs::Histories::sound_more, crate::proofs::Histories::sound_same, crate::proofs::Histories::last_answer))]
    pub fn step(&mut self, event: Event) -> Result<Receipt, StepRefused>
        ensures ok { IfOk result (λ receipt. Wrote event self.old self.new receipt.place) }
        ensures answer { IfOk result (λ receipt. option_map (λ entry. entry.answer) (slice_get self.new.journal.entries receipt.place) ≡ Some receipt.answer) }
        ensures err { IfErr result (λ refused. StaysSame event self.old self.new refused) }
    {
        let Ok(spare) = self.spare_for(&event) else {
            return Err(StepRefused {
                event,
                cause: StepCause::NoMemory,
            });
        };
        let place = self.journal.len();
        match self.kernel.step(event) {
            Ok(entry) => {
                let answer = spare.copy(&entry.answer);
                let facts = self.kernel.end_facts();
                self.journal.push(entry, facts);
                Ok(Receipt { place, answer })
            }
            Err(refused) => Err(refused),
        }
    }

    // A place in the journal, and room for a copy of what the event's step answers.
    fn spare_for(&mut self, event: &Event) -> Result<Spare, NoMemory>
        ensures origin { self.new.origin ≡ self.old.origin }
        ensures entries { self.new.journal.entries ≡ self.old.journal.entries }
        ensures facts { self.new.journal.facts ≡ self.old.journal.facts }
        ensures room { self.old.journal.room ≤ self.new.journal.room }
        ensures place { OnOk result (1 ≤ self.new.journal.room) }
        ensures spare { IfOk result (λ spare. Holds spare (room_of (state_of self.old) event.now)) }
    {
        self.journal.reserve(1)?;
        Spare::for_step(self.alloc, event, self.resumes_client(event))
    }

    // Whether the wait of a client of the normal world ends.
    fn resumes_client(&self, event: &Event) -> bool
        ensures { result ≡ resumes_client (state_of self.now) event.now }
    {
        match event {
            Event::Resume { actor, .. } => self.kernel.is_client(*actor),
            _ => false,
        }
    }
}

impl<K: IpcKernel + Drop> Recorded for Logged<K> {
    ghost history = { λ l. l.journal.entries };

    ghost origin = { λ l. l.origin };

    fn recorded(&self) -> u64 {
        self.journal.len()
    }
}
