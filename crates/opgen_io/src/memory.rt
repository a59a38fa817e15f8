//! A folder and a sink in memory, in which chosen calls fail.
ghost use Rattle.std.specs.Prelude.{◌≡◌, [], Some, true, false, IsSome, IfErr, OnOk, OnErr, position, length, vec_len, option_copied, option_map};
ghost use Rattle.opgen_io.specs.Counted.{CountsFetch};
ghost use Rattle.opgen_io.specs.Fetched.{fetched, IsAnswer};
ghost use Rattle.opgen_io.specs.Files.{stored};
ghost use Rattle.opgen_io.specs.Memory.{new_folder, files_of, is_named, found, fetch_counts, folder_fails, sink_fails, called, read_failed, write_failed, after_fetch, after_store, after_put, put_failed};

use crate::calls::Calls;
use crate::counts::raise;
use crate::{FetchFault, Folder, PutFault, Sink, StoreFault};
use std::alloc::{AllocError, Global};
use std::marker::Model;

/// Files in memory, for tests. The calls of `fetch` and `store` are counted together, from 0, and those whose numbers were listed
/// fail.
#[derive(Drop)]
pub struct MemoryFolder {
    files: Vec<(String, Vec<u8>)>,
    calls: Calls,
    read_faults: u64,
    lacks: u64,
    longs: u64,
    write_faults: u64,
}

impl Model for MemoryFolder {
    ghost use Rattle.opgen_io.specs.Memory.{FolderState, files_of};

    ghost Value = { FolderState };

    ghost view = { λ s. record {
      files = files_of s.files.items;
      failing = s.calls.failing.items;
      calls = s.calls.made;
      read_faults = s.read_faults;
      lacks = s.lacks;
      longs = s.longs;
      write_faults = s.write_faults;
    } };
}

// The place of the first file of the name.
fn place_of(files: &[(String, Vec<u8>)], name: &str) -> Option<usize>
    ensures { result ≡ position (is_named name.now) files.now }
{
    files.iter().position(|(key, _)| name == key.as_str())
}

// The bytes of the first file of the name.
fn find<'a>(files: &'a [(String, Vec<u8>)], name: &str) -> Option<&'a Vec<u8>>
    ensures { option_map (λ bytes. bytes.now.items) result ≡ found (files_of files.now) name.now }
{
    let place = place_of(files, name)?;
    Some(&files[place].1)
}

// Replaces the bytes of the first file of the name, or adds a file.
fn enter(files: &mut Vec<(String, Vec<u8>)>, name: &str, bytes: &[u8]) -> Result<(), AllocError>
    ensures stored { OnOk result (found (files_of files.new.items)
        ≡ stored name.now bytes.now (found (files_of files.old.items))) }
    ensures replaces { IsSome (found (files_of files.old.items) name.now) →
        vec_len files.new ≡ vec_len files.old }
    ensures err { OnErr result (files.new.items ≡ files.old.items) }
{
    let alloc = *files.allocator();
    let copy = Vec::from_slice(alloc, bytes)?;
    match place_of(files, name) {
        Some(place) => files[place].1 = copy,
        None => {
            let key = String::from_str(alloc, name)?;
            files.push((key, copy))?;
        }
    }
    Ok(())
}

impl MemoryFolder {
    /// The folder of these files. Of two files of one name the first counts.
    pub fn new(files: Vec<(String, Vec<u8>)>, failing: Vec<u64>) -> MemoryFolder
        ensures { result ≡ new_folder (files_of files.items) failing.items }
    {
        MemoryFolder {
            files,
            calls: Calls::new(failing),
            read_faults: 0,
            lacks: 0,
            longs: 0,
            write_faults: 0,
        }
    }

    /// The bytes under the name. This is no call that is counted.
    pub fn get(&self, name: &str) -> Option<&[u8]>
        ensures { option_copied result ≡ found self.now.files name.now }
    {
        match find(&self.files, name) {
            Some(bytes) => Some(bytes.as_slice()),
            None => None,
        }
    }
}

impl Folder for MemoryFolder {
    ghost told = { λ s. Some (found s.files) };

    ghost read_faults = { λ s. s.read_faults };

    ghost lacks = { λ s. s.lacks };

    ghost longs = { λ s. s.longs };

    ghost write_faults = { λ s. s.write_faults };

    fn fetch(&mut self, alloc: Global, name: &str, most: usize) -> Result<Vec<u8>, FetchFault>
        ensures fails { folder_fails self.old ≡ true → result ≡ Err FetchFault.Failed }
        ensures fails_counted { folder_fails self.old ≡ true → self.new ≡ read_failed self.old }
        ensures answers { folder_fails self.old ≡ false →
            IsAnswer result (fetched (found self.old.files name.now) most) }
        ensures counted { folder_fails self.old ≡ false →
            self.new ≡ after_fetch (fetched (found self.old.files name.now) most) self.old }
        ensures counts { CountsFetch result (fetch_counts self.old) (fetch_counts self.new) }
    {
        if self.calls.next_fails() {
            raise(&mut self.read_faults);
            return Err(FetchFault::Failed);
        }
        let Some(bytes) = find(&self.files, name) else {
            raise(&mut self.lacks);
            return Err(FetchFault::Failed);
        };
        if bytes.len() > most {
            raise(&mut self.longs);
            return Err(FetchFault::TooLong);
        }
        match Vec::from_slice(alloc, bytes) {
            Ok(copy) => Ok(copy),
            Err(AllocError) => Err(FetchFault::Memory),
        }
    }

    fn store(&mut self, name: &str, bytes: &[u8]) -> Result<(), StoreFault>
        ensures fails { folder_fails self.old ≡ true → result ≡ Err StoreFault.Failed }
        ensures fails_counted { folder_fails self.old ≡ true → self.new ≡ write_failed self.old }
        ensures only_memory { folder_fails self.old ≡ false →
            IfErr result (λ fault. fault ≡ StoreFault.Memory) }
        ensures stores { folder_fails self.old ≡ false →
            OnOk result (found self.new.files ≡ stored name.now bytes.now (found self.old.files)) }
        ensures counted { folder_fails self.old ≡ false →
            self.new ≡ after_store self.new.files self.old }
        ensures memory { result ≡ Err StoreFault.Memory → self.new ≡ called self.old }
        ensures replaces { IsSome (found self.old.files name.now) →
            length self.new.files ≡ length self.old.files }
    {
        if self.calls.next_fails() {
            raise(&mut self.write_faults);
            return Err(StoreFault::Failed);
        }
        match enter(&mut self.files, name, bytes) {
            Ok(()) => Ok(()),
            Err(AllocError) => Err(StoreFault::Memory),
        }
    }
}

/// Bytes in memory, for tests. The calls of `put` are counted, from 0, and those whose numbers were listed fail.
#[derive(Drop)]
pub struct MemorySink {
    bytes: Vec<u8>,
    calls: Calls,
    faults: u64,
}

impl Model for MemorySink {
    ghost use Rattle.opgen_io.specs.Memory.{SinkState};

    ghost Value = { SinkState };

    ghost view = { λ s. record {
      bytes = s.bytes.items;
      failing = s.calls.failing.items;
      calls = s.calls.made;
      faults = s.faults;
    } };
}

impl MemorySink {
    /// A sink that has taken nothing.
    pub fn new(alloc: Global, failing: Vec<u64>) -> MemorySink
        ensures { result ≡ record { bytes = []; failing = failing.items; calls = 0; faults = 0 } }
    {
        MemorySink {
            bytes: Vec::new(alloc),
            calls: Calls::new(failing),
            faults: 0,
        }
    }

    /// All bytes that were taken.
    pub fn bytes(&self) -> &[u8]
        ensures { result.now ≡ self.now.bytes }
    {
        &self.bytes
    }
}

impl Sink for MemorySink {
    ghost taken = { λ s. Some s.bytes };

    ghost puts = { λ s. s.calls };

    ghost faults = { λ s. s.faults };

    fn put(&mut self, bytes: &[u8]) -> Result<(), PutFault>
        ensures fails { sink_fails self.old ≡ true → result ≡ Err PutFault.Failed }
        ensures fails_counted { sink_fails self.old ≡ true → self.new ≡ put_failed self.old }
        ensures only_memory { sink_fails self.old ≡ false →
            IfErr result (λ fault. fault ≡ PutFault.Memory) }
        ensures puts { sink_fails self.old ≡ false →
            OnOk result (self.new ≡ after_put bytes.now self.old) }
        ensures memory { result ≡ Err PutFault.Memory → self.new ≡ after_put [] self.old }
    {
        if self.calls.next_fails() {
            raise(&mut self.faults);
            return Err(PutFault::Failed);
        }
        match self.bytes.extend_from_slice(bytes) {
            Ok(()) => Ok(()),
            Err(AllocError) => Err(PutFault::Memory),
        }
    }
}
