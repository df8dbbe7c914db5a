ghost use Rattle.std.specs.Prelude.{◌≡◌, ℕ, ◌+◌, ◌<◌, length, is_ok, if◌then◌else◌, OnOk, OnErr, Some, slice_get, slice_set};
ghost use Rattle.volume_image.specs.Volume.{IsDamaged, next_count};

use crate::memory::count_up;
use crate::{Block, BlockStore, DeviceFault};
use std::marker::Model;

/// A store that passes each call on to the store below, and counts the calls. It fails only where that store does.
#[derive(Debug, Drop)]
pub struct CountVolume<S: BlockStore> {
    store: S,
    reads: u64,
    writes: u64,
}

impl<S: BlockStore> Model for CountVolume<S> {
    ghost use Rattle.volume_image.specs.Stores.{CountingStore};

    ghost Value = { CountingStore S };

    ghost view = { λ count. record { store = count.store; reads = count.reads; writes = count.writes } };
}

impl<S: BlockStore> CountVolume<S> {
    /// Counts from 0 on.
    pub fn new(store: S) -> CountVolume<S>
        ensures { result ≡ record { store = store; reads = 0; writes = 0 } }
    {
        CountVolume {
            store,
            reads: 0,
            writes: 0,
        }
    }

    /// How many reads were asked for, failed ones too, until the count stays at its greatest value.
    pub fn reads(&self) -> u64
        ensures { result ≡ self.now.reads }
    {
        self.reads
    }

    /// How many writes were asked for, failed ones too, until the count stays at its greatest value.
    pub fn writes(&self) -> u64
        ensures { result ≡ self.now.writes }
    {
        self.writes
    }

    /// The store below.
    pub fn into_inner(self) -> S
        ensures { result ≡ self.store }
    {
        let CountVolume {
            store,
            reads: _,
            writes: _,
        } = self;
        store
    }
}

impl<S: BlockStore> BlockStore for CountVolume<S> {
    ghost contents = { λ count. S.contents count.store };

    ghost reads = { λ count. count.reads };

    ghost writes = { λ count. count.writes };

    ghost failed_reads = { λ count. S.failed_reads count.store };

    ghost failed_writes = { λ count. S.failed_writes count.store };

    fn blocks(&self) -> usize {
        self.store.blocks()
    }

    fn read(&mut self, number: usize, words: &mut Block) -> Result<(), DeviceFault>
        requires { number < length (S.contents self.old.store) }
        ensures ok { OnOk result (slice_get (S.contents self.old.store) number ≡ Some words.new) }
        ensures err { OnErr result (words.new ≡ words.old) }
        ensures same { S.contents self.new.store ≡ S.contents self.old.store }
        ensures passed_on { S.reads self.new.store ≡ next_count (S.reads self.old.store) }
        ensures writes { S.writes self.new.store ≡ S.writes self.old.store }
        ensures failed_reads { S.failed_reads self.new.store ≡
            (if is_ok result then S.failed_reads self.old.store else S.failed_reads self.old.store + 1) }
        ensures failed_writes { S.failed_writes self.new.store ≡ S.failed_writes self.old.store }
        ensures counts { self.new ≡ record
            self.old { store = self.new.store; reads = next_count self.old.reads } }
    {
        count_up(&mut self.reads);
        self.store.read(number, words)
    }

    fn write(&mut self, number: usize, words: &Block) -> Result<(), DeviceFault>
        requires { number < length (S.contents self.old.store) }
        ensures ok { OnOk result (S.contents self.new.store
            ≡ slice_set (S.contents self.old.store) number words.now) }
        ensures err { OnErr result
            (IsDamaged (S.contents self.old.store) (S.contents self.new.store) number) }
        ensures reads { S.reads self.new.store ≡ S.reads self.old.store }
        ensures passed_on { S.writes self.new.store ≡ next_count (S.writes self.old.store) }
        ensures failed_reads { S.failed_reads self.new.store ≡ S.failed_reads self.old.store }
        ensures failed_writes { S.failed_writes self.new.store ≡
            (if is_ok result then S.failed_writes self.old.store else S.failed_writes self.old.store + 1) }
        ensures counts { self.new ≡ record
            self.old { store = self.new.store; writes = next_count self.old.writes } }
    {
        count_up(&mut self.writes);
        self.store.write(number, words)
    }
}
