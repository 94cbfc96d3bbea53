//! The gateway served by threads round its lock, over real sockets: an example of `backend_pool` and `connections`. It
//! starts a backend, the gateway and a client, and prints what the client was answered.
#![tactic(auto)]

mod serving;
mod since_start;

use call_plan::Plans;
use script_replay::{Fault, read_plan_input};
use serving::{Host, serve};
use std::alloc::Global;
use std::io::{self, Read, Write};
use std::net::{Net, SocketAddr, TcpListener, TcpStream};
use std::process::ExitCode;
use std::thread;

/// A call of both branches, the last one of its stream.
const CALL: &[u8] =
    b"POST /acme.v1.Trip/Quote HTTP/1.1\r\nHost: g\r\nConnection: close\r\nContent-Type: application/json\r\nContent-Length: 2\r\n\r\n{}";

/// What the backend answers to each request.
const ANSWER: &[u8] =
    b"HTTP/1.1 200 OK\r\nContent-Type: application/json\r\nContent-Length: 11\r\n\r\n{\"ok\":true}";

fn main(rt: HostRuntime) -> ExitCode {
    match answered(rt) {
        Ok(()) => ExitCode::SUCCESS,
        Err(fault) => ExitCode::from(fault.status()),
    }
}

/// Has two workers ask the backend for both branches of one call, and prints the reply.
fn answered<M: Host + Net<Listener = TcpListener, Stream = TcpStream> + AllocGlobal + Print>(
    rt: M,
) -> Result<(), Fault> {
    let alloc = rt.alloc();
    let backend = TcpListener::bind(&rt, "127.0.0.1:0")?;
    let front = TcpListener::bind(&rt, "127.0.0.1:0")?;
    let listens_at = front.local_addr()?;
    let plans = plans_of(alloc, backend.local_addr()?)?;
    let (served, (asked, reply)) = thread::join(
        &rt,
        || serve(rt, alloc, plans, front, 2),
        || {
            thread::join(
                &rt,
                || answer_both(alloc, &backend),
                || ask(&rt, alloc, listens_at),
            )
        },
    );
    served?;
    asked?;
    io::writer(&rt).write_all(reply?.as_slice())?;
    Ok(())
}

/// A plan of two branches, both at that address.
fn plans_of(alloc: Global, backend: SocketAddr) -> Result<Plans, Fault> {
    let text = format!(in alloc;
        "[{{\"path\":\"/acme.v1.Trip/Quote\",\"limit\":2,\"branches\":[
         {{\"name\":\"flight\",\"address\":\"{backend}\",\"path\":\"/acme.v1.Flight/Find\"}},
         {{\"name\":\"hotel\",\"address\":\"{backend}\",\"path\":\"/acme.v1.Hotel/Find\"}}]}}]"
    )?;
    read_plan_input(alloc, &mut text.as_bytes())
}

/// Answers two requests, each of which ends in `{}`.
fn answer_both(alloc: Global, listener: &TcpListener) -> io::Result<()> {
    for _branch in 0..2 {
        let (stream, _peer) = listener.accept()?;
        let mut request = Vec::new(alloc);
        let mut byte = [0u8; 1];
        for _byte in 0..u64::MAX {
            if request.ends_with(b"{}") || (&mut &stream).read(&mut byte)? == 0 {
                break;
            }
            request.push(byte[0])?;
        }
        (&mut &stream).write_all(ANSWER)?;
    }
    Ok(())
}

/// Makes the call on a new stream, and reads what comes to its end.
fn ask<R: Net<Stream = TcpStream>>(
    rt: &R,
    alloc: Global,
    address: SocketAddr,
) -> io::Result<Vec<u8>> {
    let stream = TcpStream::connect(rt, address)?;
    (&mut &stream).write_all(CALL)?;
    let mut reply = Vec::new(alloc);
    (&mut &stream).read_to_end(&mut reply)?;
    Ok(reply)
}
