// The files of a bench in memory.
ghost use Rattle.std.specs.Prelude.{◌≡◌, ◌<◌, ◌^◌, ◌++◌, true, false, [], None, Some, MatchOption, position, bytes_eq, is_some, if◌then◌else◌};
ghost use Rattle.hsm_io.specs.MemoryForms.{just_opened};

use crate::listed::names_call;
use crate::{MemFile, keep_name};
use arrayvec::ArrayVec;
use std::marker::Model;
use std::mem;

/// A named file, with the numbers of its reads that fail, counted from 0 at each opening.
#[derive(Drop)]
pub struct MemNamed {
    pub name: String,
    pub bytes: Vec<u8>,
    pub bad_reads: Vec<u32>,
}

impl Model for MemNamed {
    ghost use Rattle.std.specs.Prelude.{string_bytes};
    ghost use Rattle.hsm_io.specs.MemoryForms.{NamedFile};

    ghost Value = { NamedFile };

    ghost view = { λ s. record {
      name = string_bytes s.name;
      bytes = s.bytes.items;
      bad_reads = s.bad_reads.items;
    } };
}

// Files in memory. It fails the listed openings, and those of a name that it doesn't hold.
#[derive(Drop)]
pub(crate) struct MemFiles {
    files: Vec<MemNamed>,
    // The place of the file that is out. It has lent its bytes.
    out: Option<usize>,
    bad_files: Vec<u32>,
    // The number of the next opening.
    calls: u64,
    faults: u64,
    last_name: ArrayVec<u8, 4096>,
    bad_name: ArrayVec<u8, 4096>,
}

impl Model for MemFiles {
    ghost use Rattle.hsm_io.specs.MemoryForms.{FilesState};
    ghost use Rattle.hsm_io.specs.Places.{name_out, HasPlace};

    ghost Value = { FilesState };

    ghost view = { λ s. record {
      files = s.files.items;
      out = name_out s.files.items s.out;
      bad_files = s.bad_files.items;
      calls = s.calls;
      faults = s.faults;
      last_name = s.last_name.items;
      bad_name = s.bad_name.items;
    } };

    ghost invariant = { λ s. HasPlace s.files.items s.out };
}

impl MemFiles {
    ghost use Rattle.hsm_io.specs.MemoryForms.{is_listed, opened_of, after_open, after_close};
    ghost use Rattle.hsm_io.specs.Places.{HoldsOut};

    // These files, of which none is out. It fails the listed openings, numbered from 0.
    pub(crate) fn new(files: Vec<MemNamed>, bad_files: Vec<u32>) -> MemFiles
        ensures { result ≡ record {
          files = files.items;
          out = None;
          bad_files = bad_files.items;
          calls = 0;
          faults = 0;
          last_name = [];
          bad_name = [];
        } }
    {
        MemFiles {
            files,
            out: None,
            bad_files,
            calls: 0,
            faults: 0,
            last_name: ArrayVec::new(),
            bad_name: ArrayVec::new(),
        }
    }

    // The first 4,096 bytes of the name whose file could not be opened or read last.
    pub(crate) fn bad_name(&self) -> &[u8]
        ensures { result.now ≡ self.now.bad_name }
    {
        self.bad_name.as_slice()
    }

    // The place of the file that an opening gives, or none where it is to fail.
    fn place_to_open(&self, name: &str) -> Option<usize>
        ensures { result ≡ (if is_listed self.now.bad_files self.now.calls then None
            else position (λ file. bytes_eq file.name name.now) self.now.files) }
    {
        if names_call(&self.bad_files, self.calls) {
            return None;
        }
        find_place(&self.files, name)
    }

    // Opens the file of this name.
    pub(crate) fn open(&mut self, name: &str) -> Option<MemFile>
        requires { is_some self.old.out ≡ false }
        ensures small { self.old.faults < 2 ^ 64 }
        ensures answer { result ≡ opened_of self.old name.now }
        ensures after { self.new ≡ after_open self.old name.now result }
    {
        let found = self.place_to_open(name);
        self.calls = self.calls.saturating_add(1);
        keep_name(&mut self.last_name, name.as_bytes());
        match found {
            Some(place) => {
                self.out = Some(place);
                Some(lend(&mut self.files[place]))
            }
            None => {
                self.faults = self.faults.saturating_add(1);
                keep_name(&mut self.bad_name, name.as_bytes());
                None
            }
        }
    }

    // Puts the file back.
    pub(crate) fn close(&mut self, file: MemFile)
        requires { is_some self.old.out ≡ true }
        ensures small { self.old.faults < 2 ^ 64 }
        ensures held { HoldsOut self.old }
        ensures after { self.new ≡ after_close self.old file }
    {
        let failed = file.has_failed();
        let Some(place) = self.out.take() else {
            unreachable!()
        };
        take_back(&mut self.files[place], file);
        if failed {
            self.faults = self.faults.saturating_add(1);
            copy_name(&mut self.bad_name, &self.last_name);
        }
    }
}

// Puts a name that is kept in the place of another.
fn copy_name(kept: &mut ArrayVec<u8, 4096>, name: &ArrayVec<u8, 4096>)
    ensures { kept.new.items ≡ name.now.items }
{
    kept.clear();
    match kept.try_extend_from_slice(name.as_slice()) {
        Ok(()) => {}
        Err(_) => unreachable!(),
    }
}

// The place of the first file of this name.
fn find_place(files: &[MemNamed], name: &str) -> Option<usize>
    ensures { result ≡ position (λ file. bytes_eq file.name name.now) files.now }
{
    files
        .iter()
        .position(|file| file.name.as_bytes() == name.as_bytes())
}

// Moves the bytes of a file out.
fn lend(named: &mut MemNamed) -> MemFile
    ensures file { result ≡ just_opened named.old }
    ensures left { named.new ≡ record { name = named.old.name; bytes = []; bad_reads = [] } }
{
    let no_bytes = Vec::new(*named.bytes.allocator());
    let no_reads = Vec::new(*named.bad_reads.allocator());
    let bytes = mem::replace(&mut named.bytes, no_bytes);
    let bad_reads = mem::replace(&mut named.bad_reads, no_reads);
    MemFile::opened(bytes, bad_reads)
}

// Moves the bytes of a file back.
fn take_back(named: &mut MemNamed, file: MemFile)
    ensures { named.new ≡ record {
      name = named.old.name;
      bytes = file.stream.was_read ++ file.stream.left;
      bad_reads = file.bad_reads;
    } }
{
    let (bytes, bad_reads) = file.into_parts();
    named.bytes = bytes;
    named.bad_reads = bad_reads;
}
