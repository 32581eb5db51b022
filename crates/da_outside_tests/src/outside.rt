use crate::memory::{bytes_of, calls_of};
use da_outside::*;
use std::alloc::Global;
use std::process::Abort;
use std::test::Fail;

fn read_byte<S: Source>(source: &mut S) -> Result<Option<u8>, Failed> {
    let mut buf = [0];
    let count = source.read(&mut buf)?;
    Ok(if count == 0 { None } else { Some(buf[0]) })
}

fn write_once<K: Sink>(sink: &mut K, piece: &[u8]) -> Result<usize, Failed> {
    sink.write(piece)
}

fn is_read<F: Files>(alloc: Global, files: &mut F, path: &[u8], wanted: &[u8]) -> bool {
    match files.read(alloc, path, 3) {
        Ok(read) => read.as_slice() == wanted,
        Err(_) => false,
    }
}

fn is_unread<F: Files>(alloc: Global, files: &mut F, path: &[u8], wanted: GetFault) -> bool {
    match files.read(alloc, path, 3) {
        Ok(_) => false,
        Err(fault) => fault == wanted,
    }
}

fn files<R: Abort>(rt: &R, alloc: Global) -> Vec<(Vec<u8>, Vec<u8>)> {
    let mut files = Vec::new(alloc);
    for (path, bytes) in [("a", "one"), ("b", "three"), ("a", "two"), ("c", "")] {
        let file = (
            bytes_of(rt, alloc, path.as_bytes()),
            bytes_of(rt, alloc, bytes.as_bytes()),
        );
        files.push(file).expect(rt, "memory");
    }
    files
}

#[test]
fn a_source_gives_its_bytes_and_then_its_end(rt: HostRuntime) {
    let calls = calls_of(&rt, rt.alloc(), &[2, 4]);
    let mut source = MemSource::new(bytes_of(&rt, rt.alloc(), b"ab"), calls);
    assert!(rt; read_byte(&mut source) == Ok(Some(b'a')));
    assert!(rt; read_byte(&mut source) == Err(Failed));
    assert!(rt; read_byte(&mut source) == Ok(Some(b'b')));
    assert!(rt; read_byte(&mut source) == Err(Failed));
    assert!(rt; read_byte(&mut source) == Ok(None));
}

#[test]
fn a_sound_source_gives_its_bytes_and_then_its_end(rt: HostRuntime) {
    let mut source = SoundSource::new(bytes_of(&rt, rt.alloc(), b"ab"));
    assert!(rt; read_byte(&mut source) == Ok(Some(b'a')));
    assert!(rt; read_byte(&mut source) == Ok(Some(b'b')));
    assert!(rt; read_byte(&mut source) == Ok(None));
}

#[test]
fn a_sink_keeps_what_it_took(rt: HostRuntime) {
    let mut sink = MemSink::new(rt.alloc(), calls_of(&rt, rt.alloc(), &[2]));
    assert!(rt; write_once(&mut sink, b"ab") == Ok(2));
    assert!(rt; write_once(&mut sink, b"cd") == Err(Failed));
    assert!(rt; write_once(&mut sink, b"") == Ok(0));
    assert!(rt; write_once(&mut sink, b"e") == Ok(1));
    assert!(rt; sink.bytes() == b"abe".as_slice());
    assert!(rt; write_once(&mut SoundSink::new(), b"ab") == Ok(2));
}

#[test]
fn the_first_file_of_a_path_is_read(rt: HostRuntime) {
    let alloc = rt.alloc();
    let mut mem = MemFiles::new(files(&rt, alloc), calls_of(&rt, alloc, &[2]));
    assert!(rt; is_read(alloc, &mut mem, b"a", b"one"));
    assert!(rt; is_unread(alloc, &mut mem, b"a", GetFault::Failed));
    assert!(rt; is_unread(alloc, &mut mem, b"b", GetFault::Long));
    assert!(rt; is_read(alloc, &mut mem, b"c", b""));
    assert!(rt; is_unread(alloc, &mut mem, b"d", GetFault::Failed));
    assert!(rt; mem.past().len() == 5);
}

#[test]
fn the_first_sound_file_of_a_path_is_read(rt: HostRuntime) {
    let alloc = rt.alloc();
    let mut sound = SoundFiles::new(files(&rt, alloc));
    assert!(rt; is_read(alloc, &mut sound, b"a", b"one"));
    assert!(rt; is_unread(alloc, &mut sound, b"b", GetFault::Long));
    assert!(rt; is_read(alloc, &mut sound, b"d", b""));
}

fn draw<G: Rand>(rand: &mut G) -> [u8; 16] {
    rand.bytes()
}

fn moment<C: Clock>(clock: &C) -> u64 {
    clock.now()
}

fn rest<Z: Pause>(pause: &Z) {
    pause.rest()
}

#[test]
fn what_is_set_is_given_in_order_and_its_last_again(rt: HostRuntime) {
    let mut rand = SetRand::new(&[[1; 16], [2; 16]]);
    assert!(rt; draw(&mut rand) == [1; 16]);
    let mut fork = rand.fork();
    for _ in 0..2 {
        assert!(rt; draw(&mut rand) == [2; 16]);
        assert!(rt; draw(&mut fork) == [2; 16]);
    }
    assert!(rt; draw(&mut SetRand::new(&[])) == [0; 16]);
}

#[test]
fn a_clock_stands_at_its_last_moment(rt: HostRuntime) {
    let clock = SetClock::new(calls_of(&rt, rt.alloc(), &[5, 7]));
    for want in [5, 7, 7] {
        assert!(rt; moment(&clock) == want);
        rest(&NoPause);
    }
    assert!(rt; moment(&SetClock::new(Vec::new(rt.alloc()))) == 0);
}

fn say<L: Link>(link: &mut L, line: &[u8]) -> Result<(), Failed> {
    link.send(line)
}

fn line_length<L: Link>(alloc: Global, link: &mut L) -> Result<usize, GetFault> {
    Ok(link.receive(alloc)?.len())
}

fn mem_link<R: Abort>(rt: &R, alloc: Global) -> MemLink {
    let mut bytes = bytes_of(rt, alloc, b"one\n");
    for (byte, count) in [(b'x', 8192), (b'\n', 1), (b'y', 8193), (b'z', 3)] {
        for _ in 0..count {
            bytes.push(byte).expect(rt, "memory");
        }
    }
    MemLink::new(alloc, bytes, calls_of(rt, alloc, &[1, 4]))
}

#[test]
fn a_link_gives_its_lines(rt: HostRuntime) {
    let mut link = mem_link(&rt, rt.alloc());
    assert!(rt; say(&mut link, b"line") == Err(Failed));
    assert!(rt; say(&mut link, b"line") == Ok(()));
    assert!(rt; line_length(rt.alloc(), &mut link) == Ok(3));
    assert!(rt; line_length(rt.alloc(), &mut link) == Err(GetFault::Failed));
    assert!(rt; line_length(rt.alloc(), &mut link) == Ok(8192));
    assert!(rt; line_length(rt.alloc(), &mut link) == Err(GetFault::Long));
    assert!(rt; line_length(rt.alloc(), &mut link) == Err(GetFault::Failed));
    assert!(rt; link.talk().len() == 7);
}

#[test]
fn a_sound_link_ends_in_empty_lines(rt: HostRuntime) -> Result<(), Fail> {
    let mut link = SoundLink::new(b"one\n".to_vec(rt.alloc())?);
    assert!(rt; say(&mut link, b"line") == Ok(()));
    for want in [3, 0, 0] {
        assert!(rt; line_length(rt.alloc(), &mut link) == Ok(want));
    }
    Ok(())
}

fn exchange<P: Spawner>(alloc: Global, spawner: &mut P) -> Result<usize, GetFault> {
    let mut link = spawner.start(alloc, &[])?;
    let sent = say(&mut link, b"question");
    let length = line_length(alloc, &mut link);
    spawner.finish(link);
    sent?;
    length
}

fn mem_spawner<R: Abort>(rt: &R, alloc: Global) -> MemSpawner {
    let mut links = Vec::new(alloc);
    let answer = bytes_of(rt, alloc, b"answer\n");
    let link = MemLink::new(alloc, answer, Vec::new(alloc));
    links.push(link).expect(rt, "memory");
    MemSpawner::new(alloc, links, calls_of(rt, alloc, &[1]))
}

#[test]
fn a_spawner_starts_its_links_and_takes_them_back(rt: HostRuntime) {
    let mut spawner = mem_spawner(&rt, rt.alloc());
    assert!(rt; exchange(rt.alloc(), &mut spawner) == Err(GetFault::Failed));
    assert!(rt; exchange(rt.alloc(), &mut spawner) == Ok(6));
    assert!(rt; exchange(rt.alloc(), &mut spawner) == Err(GetFault::Failed));
}

fn reply_length<R: Runner>(alloc: Global, runner: &mut R) -> Result<usize, GetFault> {
    let exit = runner.run(alloc, b"program", b"input")?;
    Ok(exit.reply.bytes().len())
}

fn long_exit<R: Abort>(rt: &R, alloc: Global) -> Vec<Exit> {
    let reply = Bytes::new(vec![in alloc; b'x'; 9000].expect(rt, "memory"));
    let mut exits = Vec::new(alloc);
    exits.push(Exit { status: 1, reply }).expect(rt, "memory");
    exits
}

#[test]
fn a_runner_gives_its_exits_cut(rt: HostRuntime) {
    let exits = long_exit(&rt, rt.alloc());
    let mut runner = MemRunner::new(rt.alloc(), exits, calls_of(&rt, rt.alloc(), &[1]));
    assert!(rt; reply_length(rt.alloc(), &mut runner) == Err(GetFault::Failed));
    assert!(rt; reply_length(rt.alloc(), &mut runner) == Ok(8194));
    assert!(rt; reply_length(rt.alloc(), &mut runner) == Err(GetFault::Failed));
    assert!(rt; runner.past().len() == 3);
}

#[test]
fn a_sound_runner_gives_its_exits_cut(rt: HostRuntime) {
    let mut runner = SoundRunner::new(long_exit(&rt, rt.alloc()));
    assert!(rt; reply_length(rt.alloc(), &mut runner) == Ok(8194));
    assert!(rt; reply_length(rt.alloc(), &mut runner) == Ok(0));
}

fn bound<L: Listen>(alloc: Global, listen: &mut L) -> Result<(), GetFault> {
    listen.bind(alloc, b"path")
}

fn accepted<L: Listen>(alloc: Global, listen: &mut L) -> Result<(L::Source, L::Sink), GetFault> {
    listen.accept(alloc)
}

fn mem_listen<R: Abort>(rt: &R, alloc: Global) -> MemListen {
    let source = MemSource::new(bytes_of(rt, alloc, b"a"), Vec::new(alloc));
    let mut conns = Vec::new(alloc);
    let conn = (source, MemSink::new(alloc, Vec::new(alloc)));
    conns.push(conn).expect(rt, "memory");
    MemListen::new(conns, calls_of(rt, alloc, &[1]))
}

#[test]
fn a_listener_gives_its_connections(rt: HostRuntime) {
    let mut listen = mem_listen(&rt, rt.alloc());
    assert!(rt; bound(rt.alloc(), &mut listen) == Err(GetFault::Failed));
    assert!(rt; bound(rt.alloc(), &mut listen) == Ok(()));
    let (mut source, _sink) = accepted(rt.alloc(), &mut listen).expect(&rt, "a connection");
    assert!(rt; read_byte(&mut source) == Ok(Some(b'a')));
    assert!(rt; accepted(rt.alloc(), &mut listen).is_err());
}

// The first byte of the next connection.
fn first_byte<R: Abort>(
    rt: &R,
    alloc: Global,
    listen: &mut SoundListen,
) -> Result<Option<u8>, Failed> {
    let (mut source, _) = accepted(alloc, listen).expect(rt, "a connection");
    read_byte(&mut source)
}

#[test]
fn a_sound_listener_ends_in_empty_connections(rt: HostRuntime) {
    let mut conns = Vec::new(rt.alloc());
    let source = SoundSource::new(bytes_of(&rt, rt.alloc(), b"a"));
    conns.push((source, SoundSink::new())).expect(&rt, "memory");
    let mut listen = SoundListen::new(conns);
    assert!(rt; bound(rt.alloc(), &mut listen) == Ok(()));
    assert!(rt; first_byte(&rt, rt.alloc(), &mut listen) == Ok(Some(b'a')));
    assert!(rt; first_byte(&rt, rt.alloc(), &mut listen) == Ok(None));
}

fn member_of<W: Crew>(crew: &mut W) -> (W::Spawner, W::Runner) {
    crew.member()
}

#[test]
fn a_sound_crew_answers_nothing(rt: HostRuntime) {
    let (mut spawner, mut runner) = member_of(&mut SoundCrew::new(rt.alloc()));
    assert!(rt; exchange(rt.alloc(), &mut spawner) == Ok(0));
    assert!(rt; reply_length(rt.alloc(), &mut runner) == Ok(0));
}
