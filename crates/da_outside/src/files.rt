ghost use Rattle.std.specs.Prelude.{◌≡◌, [], None, Some, IfSome, MatchOption, option_map};
ghost use Rattle.da_outside.specs.Calls.{no_calls};
ghost use Rattle.da_outside.specs.Causes.{HasGetCause};
ghost use Rattle.da_outside.specs.Files.{FilesState, ReadGives, after_read, bytes_at, file_at, file_read, files_of, mem_files, mem_read};
ghost use Rattle.da_outside.specs.Got.{got_of, got_within};
ghost use Rattle.da_outside.specs.Past.{Recalls};

use crate::calls::Calls;
use crate::faults::{give, keep};
use crate::{Bytes, GetFault, Got};
use std::alloc::Global;
use std::marker::Model;

/// A read of a file, and what it gave.
#[derive(Debug, Drop)]
pub struct FileRead {
    pub path: Bytes,
    pub got: Got,
}

/// Files that can be read.
pub trait Files {
    /// What they tell: the files that they hold, of equal paths the first; the reads made, without those that wanted
    /// memory; and how often they failed.
    ghost state: { Self → FilesState };

    /// The bytes of the file at `path`. It is `Long` exactly where these are more than `max`.
    fn read(&mut self, alloc: Global, path: &[u8], max: usize) -> Result<Vec<u8>, GetFault>
        ensures held { (state self.new).held ≡ (state self.old).held }
        ensures past { Recalls (state self.old).past (state self.new).past (file_read path.now result) }
        ensures gives { ReadGives (state self.old).held path.now max result }
        ensures cause { HasGetCause (state self.old).faults (state self.new).faults result };
}

/// The bytes of the first file at `path`.
fn find<'a>(files: &'a [(Vec<u8>, Vec<u8>)], path: &[u8]) -> Option<&'a [u8]>
    ensures { option_map (λ bytes. bytes.now) result ≡ file_at (files_of files.now) path.now }
{
    for file in files {
        if file.0.as_slice() == path {
            return Some(&file.1);
        }
    }
    None
}

/// Files in memory, some reads of which fail. It keeps its reads.
#[derive(Debug, Drop)]
pub struct MemFiles {
    files: Vec<(Vec<u8>, Vec<u8>)>,
    past: Vec<FileRead>,
    calls: Calls,
}

impl Model for MemFiles {
    ghost use Rattle.da_outside.specs.Files.{MemFilesState, files_of};

    ghost Value = { MemFilesState };

    ghost view = { λ files. record { held = files_of files.files.items; past = files.past.items; calls = files.calls } };
}

impl MemFiles {
    /// These files, each with its path and its bytes. `fail` holds the numbers of the calls that fail, counted from 1.
    pub fn new(files: Vec<(Vec<u8>, Vec<u8>)>, fail: Vec<u64>) -> MemFiles
        ensures { result ≡ record { held = files_of files.items; past = []; calls = no_calls fail.items } }
    {
        let past = Vec::new(*files.allocator());
        MemFiles {
            files,
            past,
            calls: Calls::new(fail),
        }
    }

    /// The reads made, in order.
    pub fn past(&self) -> &[FileRead]
        ensures { result.now ≡ self.now.past }
    {
        &self.past
    }

    /// What a read gives.
    fn look(&self, alloc: Global, path: &[u8], max: usize) -> Result<Vec<u8>, GetFault>
        ensures { IfSome (got_of result) (λ got. got ≡ mem_read self.now path.now max) }
    {
        if self.calls.fails_next() {
            return Err(GetFault::Failed);
        }
        match find(&self.files, path) {
            Some(bytes) => give(alloc, bytes, max),
            None => Err(GetFault::Failed),
        }
    }
}

impl Files for MemFiles {
    ghost state = { mem_files };

    /// It fails exactly where `fail` holds the call's number or no file has the path. A call that wants memory changes
    /// nothing, and has no number.
    fn read(&mut self, alloc: Global, path: &[u8], max: usize) -> Result<Vec<u8>, GetFault>
        ensures held { Some self.new.held ≡ Some self.old.held }
        ensures past { Recalls (Some self.old.past) (Some self.new.past) (file_read path.now result) }
        ensures gives { ReadGives (Some self.old.held) path.now max result }
        ensures cause { HasGetCause self.old.calls.faults self.new.calls.faults result }
        ensures outcome { MatchOption (got_of result) (self.new ≡ self.old)
            (λ got. (got ≡ mem_read self.old path.now max) × (self.new ≡ after_read self.old path.now got)) }
    {
        let answer = self.look(alloc, path, max);
        let got = keep(alloc, &answer)?;
        let path = Bytes::new(path.to_vec(alloc)?);
        let failed = got.is_fault();
        self.past.push(FileRead { path, got })?;
        self.calls.count(failed);
        answer
    }
}

/// Files in memory that are read without a fault. A path that no file has is an empty file.
#[derive(Debug, Drop)]
pub struct SoundFiles {
    files: Vec<(Vec<u8>, Vec<u8>)>,
}

impl Model for SoundFiles {
    ghost use Rattle.std.specs.Prelude.{List};
    ghost use Rattle.da_outside.specs.Files.{File, files_of};

    ghost Value = { List File };

    ghost view = { λ files. files_of files.files.items };
}

impl SoundFiles {
    /// These files, each with its path and its bytes.
    pub fn new(files: Vec<(Vec<u8>, Vec<u8>)>) -> SoundFiles
        ensures { result ≡ files_of files.items }
    {
        SoundFiles { files }
    }
}

impl Files for SoundFiles {
    ghost state = { λ files. record { held = Some files; past = None; faults = 0 } };

    fn read(&mut self, alloc: Global, path: &[u8], max: usize) -> Result<Vec<u8>, GetFault>
        ensures held { Some self.new ≡ Some self.old }
        ensures gives { ReadGives (Some self.old) path.now max result }
        ensures cause { HasGetCause 0 0 result }
        ensures outcome { IfSome (got_of result) (λ got. got ≡ got_within max (bytes_at self.old path.now)) }
    {
        give(alloc, find(&self.files, path).unwrap_or(&[]), max)
    }
}
