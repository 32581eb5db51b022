// The command `worker`.

ghost use Rattle.std.specs.Prelude.{◌≡◌, map, string_bytes, Some, IfOk};
ghost use Rattle.da_work.specs.Work.{pass_path, user_path, status_of_end, RunsWorker, WorksOver};

use da_command::{Status, path_of_worker, read_settings};
use da_fields::Text;
use da_outside::{Files, Sink, Source};
use da_passdb::{Driver, Passdb};
use da_settings::Settings;
use da_userdb::{UserDriver, Userdb};
use da_worker::{WorkerStatus, answer_all};
use std::alloc::{AllocError, Global};

/// `worker PATH`: reads the settings from the file at PATH, and then answers each query line of the input with one line
/// of the output, by the passwd-files of the settings' databases.
pub fn run_worker<S: Source, K: Sink, F: Files>(
    alloc: Global,
    words: &[String],
    files: &mut F,
    input: &mut S,
    output: &mut K,
) -> Status
    ensures { RunsWorker (map string_bytes words.now)
        (record {
          files = F.state files.old;
          input = S.state input.old;
          output = K.state output.old;
        })
        (record {
          files = F.state files.new;
          input = S.state input.new;
          output = K.state output.new;
        })
        result }
{
    let Some(path) = path_of_worker(words) else {
        return Status::Usage;
    };
    match read_settings(alloc, path, files) {
        Ok(settings) => work_over(alloc, &settings, files, input, output),
        Err(status) => status,
    }
}

fn work_over<S: Source, K: Sink, F: Files>(
    alloc: Global,
    settings: &Settings,
    files: &mut F,
    input: &mut S,
    output: &mut K,
) -> Status
    ensures { WorksOver settings.now
        (record {
          files = F.state files.old;
          input = S.state input.old;
          output = K.state output.old;
        })
        (record {
          files = F.state files.new;
          input = S.state input.new;
          output = K.state output.new;
        })
        result }
{
    let Ok(pass) = pass_paths(alloc, settings.passdb.all()) else {
        return Status::NoMemory;
    };
    let Ok(users) = user_paths(alloc, settings.userdb.all()) else {
        return Status::NoMemory;
    };
    status_of_end(answer_all(alloc, &pass, &users, files, input, output))
}

fn pass_path(alloc: Global, db: &Passdb) -> Result<Text, AllocError>
    ensures { IfOk result (λ path. path ≡ pass_path db.now) }
{
    match db.driver {
        Driver::PasswdFile => db.args.copy(alloc),
        Driver::Worker | Driver::Checkpassword => Ok(Text::new(Vec::new(alloc))),
    }
}

fn user_path(alloc: Global, db: &Userdb) -> Result<Text, AllocError>
    ensures { IfOk result (λ path. path ≡ user_path db.now) }
{
    match db.driver {
        UserDriver::PasswdFile => db.args.copy(alloc),
        UserDriver::Worker | UserDriver::Prefetch => Ok(Text::new(Vec::new(alloc))),
    }
}

fn pass_paths(alloc: Global, dbs: &[Passdb]) -> Result<Vec<Text>, AllocError>
    ensures { IfOk result (λ paths. paths.items ≡ map pass_path dbs.now) }
{
    let mut paths = Vec::new(alloc);
    for db in dbs {
        paths.push(pass_path(alloc, db)?)?;
    }
    Ok(paths)
}

fn user_paths(alloc: Global, dbs: &[Userdb]) -> Result<Vec<Text>, AllocError>
    ensures { IfOk result (λ paths. paths.items ≡ map user_path dbs.now) }
{
    let mut paths = Vec::new(alloc);
    for db in dbs {
        paths.push(user_path(alloc, db)?)?;
    }
    Ok(paths)
}

fn status_of_end(end: WorkerStatus) -> Status
    ensures { result ≡ status_of_end end }
{
    match end {
        WorkerStatus::Done => Status::Done,
        WorkerStatus::BadInput { .. } => Status::BadInput,
        WorkerStatus::LongInput => Status::LongScript,
        WorkerStatus::ReadFault => Status::ReadFault,
        WorkerStatus::WriteFault => Status::WriteFault,
        WorkerStatus::NoMemory => Status::NoMemory,
    }
}
