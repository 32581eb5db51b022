// Workers for tests, which answer from a file of users in memory.

ghost use Rattle.std.specs.Prelude.{None};

use da_fields::Text;
use da_outside::{
    Crew, Failed, GetFault, Link, MemFiles, MemLink, MemRunner, MemSink, MemSource, Spawner,
};
use da_worker::{WorkerStatus, answer_all};
use std::alloc::{AllocError, Global};

const USERS: &[u8] = b"# users\nalice:{PLAIN}pw:1000:1000::/home/alice::userdb_quota=1G nodelay\n";

// One path, once for the passwords and once for the users.
fn paths(alloc: Global) -> Result<Vec<Text>, AllocError> {
    let mut paths = Vec::new(alloc);
    paths.push(Text::from_slice(alloc, b"users")?)?;
    Ok(paths)
}

fn users(alloc: Global) -> Result<MemFiles, AllocError> {
    let mut files = Vec::new(alloc);
    files.push((b"users".to_vec(alloc)?, USERS.to_vec(alloc)?))?;
    Ok(MemFiles::new(files, Vec::new(alloc)))
}

// What a worker answers to a line by the file of users, with its LF.
fn answer_of(alloc: Global, line: &[u8]) -> Result<MemSink, AllocError> {
    let paths = paths(alloc)?;
    let mut files = users(alloc)?;
    let mut input = line.to_vec(alloc)?;
    input.push(b'\n')?;
    let mut source = MemSource::new(input, Vec::new(alloc));
    let mut sink = MemSink::new(alloc, Vec::new(alloc));
    match answer_all(alloc, &paths, &paths, &mut files, &mut source, &mut sink) {
        WorkerStatus::Done => Ok(sink),
        _ => Err(AllocError),
    }
}

fn link_of(alloc: Global, line: &[u8]) -> Result<MemLink, AllocError> {
    let answer = answer_of(alloc, line)?;
    let bytes = answer.bytes().to_vec(alloc)?;
    Ok(MemLink::new(alloc, bytes, Vec::new(alloc)))
}

/// A link to a worker that answers each line by the file of users.
#[derive(Drop)]
pub struct FileLink {
    alloc: Global,
    link: MemLink,
    faults: u64,
}

impl Link for FileLink {
    ghost state = { λ file. record { left = None; talk = None; faults = file.faults } };

    fn send(&mut self, line: &[u8]) -> Result<(), Failed> {
        match link_of(self.alloc, line) {
            Ok(link) => {
                self.link = link;
                Ok(())
            }
            Err(_) => {
                self.faults = self.faults.saturating_add(1);
                Err(Failed)
            }
        }
    }

    fn receive(&mut self, alloc: Global) -> Result<Vec<u8>, GetFault> {
        let answer = self.link.receive(alloc);
        if let Err(GetFault::Failed) = answer {
            self.faults = self.faults.saturating_add(1);
        }
        answer
    }
}

/// It starts such links.
#[derive(Drop)]
pub struct FileWorkers {
    faults: u64,
}

impl Spawner for FileWorkers {
    type Link = FileLink;

    ghost state = { λ workers. record { left = None; past = None; faults = workers.faults } };

    fn start(&mut self, alloc: Global, _command: &[Vec<u8>]) -> Result<FileLink, GetFault> {
        Ok(FileLink {
            alloc,
            link: MemLink::new(alloc, Vec::new(alloc), Vec::new(alloc)),
            faults: 0,
        })
    }

    fn finish(&mut self, link: FileLink) {
        if link.faults > 0 {
            self.faults = self.faults.saturating_add(1);
        }
    }
}

/// Such workers.
#[derive(Drop)]
pub struct FileCrew {
    pub alloc: Global,
}

impl Crew for FileCrew {
    type Spawner = FileWorkers;

    type Runner = MemRunner;

    fn member(&mut self) -> (FileWorkers, MemRunner) {
        let runner = MemRunner::new(self.alloc, Vec::new(self.alloc), Vec::new(self.alloc));
        (FileWorkers { faults: 0 }, runner)
    }
}
