//! The disk in memory, of which a crash may tear each call.
ghost use Rattle.std.specs.Prelude.{◌≡◌, ◌≤◌, ◌+◌, false, length, take, vec_len, vec_capacity, IfOk, IsOk, OnOk, [], ◌∷◌, ◌++◌};
ghost use Rattle.outside.specs.Memory.{fails_at};
ghost use Rattle.outside.specs.Stock.{IsDistinctNames};
ghost use Rattle.disk_outside.specs.Disk.{Cut, IsSettled, Reads, Stays, Steps, Torn, Unmoved, size, written};
ghost use Rattle.disk_outside.specs.Memory.{Counts, Does, cutting, is_fault, ops_of, pool_length, read_after, seen_by, syncing, view_of, writing};
ghost use Rattle.disk_outside.specs.Recorded.{orderly};

use crate::calls::{Call, Kind, replayed};
use crate::disk::{Disk, DiskRefusal, Failed, MAX_READ};
use fx_num::{NoMemory, Text};
use outside::{Calls, Files};
use std::alloc::Global;
use std::marker::Model;

/// A disk in memory that fails at the calls of a list. A crash may leave of its calls since the last sync all that a
/// disk may leave of them. Contracts see its state.
///
/// A write, cut or sync costs 1, and 1 for each byte of its name and of what it writes. A call by which all cost would
/// come to more than the reserve fails.
#[derive(Drop)]
pub struct MemDisk {
    files: Files,
    calls: Vec<Call>,
    // The names and bytes of the calls, one after the other.
    pool: Vec<u8>,
    fail: Calls,
    made: u64,
    reserve: u64,
    used: u64,
    faults: u64,
    ghost parts: { pool_length calls.items ≡ length pool.items },
    ghost call_room: { reserve ≤ vec_capacity calls },
    ghost pool_room: { reserve ≤ vec_capacity pool },
    ghost spent: { vec_len calls + vec_len pool ≤ used },
    ghost within: { used ≤ reserve },
}

impl Model for MemDisk {
    ghost use Rattle.disk_outside.specs.Memory.{MemState, ops_of};

    ghost Value = { MemState };

    ghost view = { λ d. record { files = d.files; calls = ops_of d.calls.items d.pool.items; fail = d.fail; made = d.made; reserve = d.reserve; used = d.used; faults = d.faults } };
}

impl MemDisk {
    /// A disk with these files, all of them on it, whose calls of these numbers fail. The only error is want of memory.
    pub fn new(alloc: Global, files: Files, reserve: u64, fail: Calls) -> Result<MemDisk, NoMemory>
        requires { IsDistinctNames files }
        ensures { IfOk result (λ d. d ≡ record { files = files; calls = []; fail = fail; made = 0; reserve = reserve; used = 0; faults = 0 }) }
    {
        let calls = Vec::with_capacity(alloc, reserve as usize)?;
        let pool = Vec::with_capacity(alloc, reserve as usize)?;
        Ok(MemDisk {
            files,
            calls,
            pool,
            fail,
            made: 0,
            reserve,
            used: 0,
            faults: 0,
        })
    }

    /// Counts a read, or fails.
    fn count_read(&mut self) -> Result<(), Failed>
        ensures counts { Counts self.old result self.new }
        ensures faults_kept { self.old.faults ≤ self.new.faults }
    {
        let number = self.made;
        self.made = number.saturating_add(1);
        if self.fail.fails_at(number) {
            self.faults = self.faults.saturating_add(1);
            return Err(Failed);
        }
        Ok(())
    }

    /// What a read gives of the file, if that is not too long.
    fn read_within(&self, alloc: Global, name: &Text) -> Result<Text, DiskRefusal>
        ensures reads { Reads (seen_by self.now.files self.now.calls name.now) result }
        ensures no_fault { is_fault result ≡ false }
    {
        let bytes = replayed(alloc, &self.files, &self.calls, &self.pool, name)?;
        if bytes.len() as u64 > MAX_READ {
            return Err(DiskRefusal::TooLong);
        }
        Ok(Text::from_bytes(alloc, &bytes)?)
    }

    /// Takes down a call, or fails.
    fn record_call(&mut self, kind: Kind, name: &Text, at: u64, bytes: &[u8]) -> Result<(), Failed>
        ensures does { Does self.old (record { number = self.old.made; kind = kind; name = name.now; at = at; bytes = bytes.now }) result self.new }
        ensures faults_kept { self.old.faults ≤ self.new.faults }
    {
        let number = self.made;
        self.made = number.saturating_add(1);
        let size = name.as_bytes().len() as u64 + bytes.len() as u64;
        if self.fail.fails_at(number) || self.reserve - self.used <= size {
            self.faults = self.faults.saturating_add(1);
            return Err(Failed);
        }
        self.used = self.used + 1 + size;
        let call = Call {
            number,
            kind,
            at,
            name: name.as_bytes().len(),
            bytes: bytes.len(),
        };
        take_down(&mut self.calls, &mut self.pool, call, name, bytes);
        Ok(())
    }
}

/// Takes down a call, its name and its bytes. There is room for them.
fn take_down(calls: &mut Vec<Call>, pool: &mut Vec<u8>, call: Call, name: &Text, bytes: &[u8])
    requires call_room { vec_len calls.old + 1 ≤ vec_capacity calls.old }
    requires pool_room { vec_len pool.old + (length name.now + length bytes.now) ≤ vec_capacity pool.old }
    requires name { call.name ≡ length name.now }
    requires bytes { call.bytes ≡ length bytes.now }
    requires parts { pool_length calls.old.items ≡ length pool.old.items }
    ensures parts { pool_length calls.new.items ≡ length pool.new.items }
    ensures ops { ops_of calls.new.items pool.new.items ≡ ops_of calls.old.items pool.old.items ++ record { number = call.number; kind = call.kind; name = name.now; at = call.at; bytes = bytes.now } ∷ [] }
    ensures calls { vec_len calls.new ≡ vec_len calls.old + 1 }
    ensures pool { vec_len pool.new ≡ vec_len pool.old + (length name.now + length bytes.now) }
    ensures call_capacity { vec_capacity calls.old ≤ vec_capacity calls.new }
    ensures pool_capacity { vec_capacity pool.old ≤ vec_capacity pool.new }
{
    match append(calls, pool, call, name, bytes) {
        Ok(()) => {}
        Err(_) => {}
    }
}

/// Appends a call, its name and its bytes. There is room for them.
fn append(
    calls: &mut Vec<Call>,
    pool: &mut Vec<u8>,
    call: Call,
    name: &Text,
    bytes: &[u8],
) -> Result<(), NoMemory>
    requires call_room { vec_len calls.old + 1 ≤ vec_capacity calls.old }
    requires pool_room { vec_len pool.old + length name.now + length bytes.now ≤ vec_capacity pool.old }
    ensures never { IsOk result }
    ensures calls { calls.new.items ≡ calls.old.items ++ call ∷ [] }
    ensures pool { pool.new.items ≡ pool.old.items ++ name.now ++ bytes.now }
    ensures call_capacity { vec_capacity calls.old ≤ vec_capacity calls.new }
    ensures pool_capacity { vec_capacity pool.old ≤ vec_capacity pool.new }
{
    calls.push(call)?;
    pool.extend_from_slice(name.as_bytes())?;
    pool.extend_from_slice(bytes)?;
    Ok(())
}

impl Disk for MemDisk {
    ghost told = { Unit {0} };

    ghost view = { λ d. view_of d };

    ghost orderly = { λ d _. orderly d.files d.calls d.faults };

    /// A call of the list answers `Faulted`; any other answers by the bytes of the file.
    fn read(&mut self, alloc: Global, name: &Text) -> Result<Text, DiskRefusal>
        ensures reads { Reads (seen_by self.old.files self.old.calls name.now) result }
        ensures fails { is_fault result ≡ fails_at self.old.fail self.old.made }
        ensures after { self.new ≡ read_after self.old result }
        ensures stays { Stays (view_of self.old) (view_of self.new) }
        ensures faults_kept { self.old.faults ≤ self.new.faults }
    {
        match self.count_read() {
            Ok(()) => self.read_within(alloc, name),
            Err(Failed) => Err(DiskRefusal::Faulted),
        }
    }

    /// A call of the list, and one that would pass the reserve, fails; any other is done.
    fn write_at(&mut self, name: &Text, at: u64, bytes: &[u8]) -> Result<(), Failed>
        requires { at ≤ size (view_of self.old) name.now }
        ensures does { Does self.old (writing self.old name.now at bytes.now) result self.new }
        ensures written { OnOk result ((view_of self.new).seen name.now ≡ written ((view_of self.old).seen name.now) at bytes.now) }
        ensures change { Steps name.now (Torn at (length bytes.now)) (view_of self.old) (view_of self.new) }
        ensures faults_kept { self.old.faults ≤ self.new.faults }
    {
        self.record_call(Kind::Write, name, at, bytes)
    }

    /// A call of the list, and one that would pass the reserve, fails; any other is done.
    fn cut(&mut self, name: &Text, length: u64) -> Result<(), Failed>
        requires { length ≤ size (view_of self.old) name.now }
        ensures does { Does self.old (cutting self.old name.now length) result self.new }
        ensures cut { OnOk result ((view_of self.new).seen name.now ≡ take length ((view_of self.old).seen name.now)) }
        ensures change { Steps name.now (Cut length) (view_of self.old) (view_of self.new) }
        ensures faults_kept { self.old.faults ≤ self.new.faults }
    {
        self.record_call(Kind::Cut, name, length, &[])
    }

    /// A call of the list, and one that would pass the reserve, fails; any other is done.
    fn sync(&mut self, name: &Text) -> Result<(), Failed>
        ensures does { Does self.old (syncing self.old name.now) result self.new }
        ensures seen { (view_of self.new).seen name.now ≡ (view_of self.old).seen name.now }
        ensures settled { OnOk result (IsSettled (view_of self.new) name.now) }
        ensures change { Steps name.now Unmoved (view_of self.old) (view_of self.new) }
        ensures faults_kept { self.old.faults ≤ self.new.faults }
    {
        self.record_call(Kind::Sync, name, 0, &[])
    }
}
