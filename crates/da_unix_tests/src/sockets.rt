// The sockets of the system, as the service binds them.

use da_outside::{GetFault, Listen, Sink, Source};
use da_unix::Socket;
use std::alloc::Global;
use std::fs;
use std::io::{self, Read, Write};
use std::net::Net;
use std::os::unix::fs::{FileTypeExt, PermissionsExt};
use std::os::unix::net::UnixStream;
use std::rt::Files;
use std::test::Fail;

fn is_bound<R: Files + Net>(socket: &mut Socket<'_, R>, alloc: Global, path: &str) -> bool {
    socket.bind(alloc, path.as_bytes()).is_ok()
}

fn is_refused<R: Files + Net>(rt: &R, alloc: Global, path: &str) -> bool {
    let mut socket = Socket::new(rt);
    let answer = socket.bind(alloc, path.as_bytes());
    socket.close();
    matches!(answer, Err(GetFault::Failed))
}

// Whether a socket's file is there that its owner and its group alone may use.
fn is_closed_to_others<R: Files>(rt: &R, path: &str) -> io::Result<bool> {
    let metadata = fs::symlink_metadata(rt, path)?;
    let mode = metadata.permissions().mode() & 0o777;
    Ok(metadata.file_type().is_socket() && mode == 0o660)
}

#[test]
fn a_file_that_nobody_listens_at_is_replaced(rt: HostRuntime) -> Result<(), Fail> {
    let path = "stale.sock";
    let mut first = Socket::new(&rt);
    assert!(rt; is_bound(&mut first, rt.alloc(), path));
    assert!(rt; is_closed_to_others(&rt, path)?);
    // somebody listens
    assert!(rt; is_refused(&rt, rt.alloc(), path));
    assert!(rt; is_closed_to_others(&rt, path)?);
    drop(first);
    // its file is there still
    assert!(rt; is_closed_to_others(&rt, path)?);
    let mut second = Socket::new(&rt);
    assert!(rt; is_bound(&mut second, rt.alloc(), path));
    assert!(rt; is_closed_to_others(&rt, path)?);
    second.close();
    assert!(rt; fs::symlink_metadata(&rt, path).is_err());
    Ok(())
}

#[test]
fn what_is_no_socket_stays(rt: HostRuntime) -> Result<(), Fail> {
    fs::write(&rt, "no.sock", "a text")?;
    assert!(rt; is_refused(&rt, rt.alloc(), "no.sock"));
    assert_eq!(rt; fs::read_to_string(&rt, "no.sock")?.as_str(), "a text");
    assert!(rt; is_refused(&rt, rt.alloc(), "no-folder/no.sock"));
    Ok(())
}

// Whether what one half of a connection sends is what the other end gets, both ways.
fn is_carried<R: Files + Net>(
    rt: &R,
    alloc: Global,
    socket: &mut Socket<'_, R>,
    path: &str,
) -> io::Result<bool> {
    let stream = UnixStream::connect(rt, path)?;
    let Ok((mut reads, mut writes)) = socket.accept(alloc) else {
        return Ok(false);
    };
    (&mut &stream).write_all(b"ping")?;
    let mut piece = [0; 4];
    let Ok(4) = reads.read(&mut piece) else {
        return Ok(false);
    };
    if piece != *b"ping" || writes.write(b"pong").is_err() {
        return Ok(false);
    }
    (&mut &stream).read_exact(&mut piece)?;
    // the half that writes ends the connection
    drop(writes);
    let mut more = [0; 1];
    Ok(piece == *b"pong" && (&mut &stream).read(&mut more)? == 0)
}

#[test]
fn a_connection_carries_bytes_both_ways(rt: HostRuntime) -> Result<(), Fail> {
    let path = "carry.sock";
    let mut socket = Socket::new(&rt);
    assert!(rt; is_bound(&mut socket, rt.alloc(), path));
    let is_right = is_carried(&rt, rt.alloc(), &mut socket, path)?;
    // nobody connects any more
    let is_idle = matches!(socket.accept(rt.alloc()), Err(GetFault::Failed));
    socket.close();
    assert!(rt; is_right && is_idle);
    Ok(())
}
