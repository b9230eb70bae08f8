//! What no clause says of the network: each call once on its happy path, in memory and over sockets of this machine. A line of
//! stdout for each step.

#![tactic(auto)]

use network_ports::{
    Dial, Listen, MemConnection, MemDial, MemListen, TcpDial, TcpListen, send_all,
};
use select_ports::Failed;
use std::alloc::Global;
use std::net::{Net, OpenListener, TcpListener};
use std::rt::Clock;
use std::test::Fail;
use std::time::Instant;

/// What a call answered, in words.
fn word<T: Drop>(answer: Result<T, Failed>) -> &'static str {
    match answer {
        Ok(_) => "ok",
        Err(_) => "failed",
    }
}

/// The number that a call answered, or 99 where it failed.
fn number(answer: Result<usize, Failed>) -> usize {
    answer.unwrap_or(99)
}

fn connection(alloc: Global, incoming: &[u8]) -> Result<MemConnection, Fail> {
    let mut bytes = Vec::new(alloc);
    bytes.extend_from_slice(incoming)?;
    Ok(MemConnection {
        incoming: bytes,
        taken: 0,
        written: Vec::new(alloc),
        broke: false,
    })
}

/// One connection of four bytes, three a call at most.
fn memory<R: Print + AllocGlobal>(rt: &R) -> Result<(), Fail> {
    let alloc = rt.alloc();
    let connections = vec![in alloc; connection(alloc, b"ping")?]?;
    let mut link = MemListen::new(connections, vec![in alloc; 3]?, Vec::new(alloc));
    println!(rt; "memory, next {}", word(link.next()))?;
    let mut piece = [0; 8];
    println!(rt; "read {}", number(link.read(&mut piece)))?;
    println!(rt; "read {}", number(link.read(&mut piece)))?;
    println!(rt; "read {}", number(link.read(&mut piece)))?;
    println!(rt; "send {}", word(send_all(&mut link, b"pong!")))?;
    println!(rt; "next {}", word(link.next()))?;
    println!(rt; "read {}", number(link.read(&mut piece)))?;
    for connection in link.connections() {
        println!(rt;
            "taken {} written {}",
            connection.taken,
            connection.written.len()
        )?;
    }
    Ok(())
}

/// A connection whose second call, a write, fails.
fn memory_dial<R: Print + AllocGlobal>(rt: &R) -> Result<(), Fail> {
    let alloc = rt.alloc();
    let connections = vec![in alloc; connection(alloc, b"ping")?]?;
    let mut peer = MemDial::new(connections, Vec::new(alloc), vec![in alloc; 2]?);
    println!(rt; "memory, dial {}", word(peer.dial()))?;
    println!(rt; "write {}", number(peer.write(b"hello")))?;
    println!(rt; "write {}", number(peer.write(b"hello")))?;
    println!(rt; "dial {}", word(peer.dial()))?;
    for connection in peer.connections() {
        println!(rt;
            "written {} broke {}",
            connection.written.len(),
            connection.broke
        )?;
    }
    Ok(())
}

/// A port that nobody listens at.
fn free_port<R: Net>(rt: &R) -> Result<u16, Fail> {
    let listener = TcpListener::bind(rt, "127.0.0.1:0")?;
    Ok(listener.local_addr()?.port())
}

/// Both sides in one thread: the system takes the connection before `next` does.
fn sockets<R: Net + Print + AllocGlobal + Clock>(rt: &R) -> Result<(), Fail> {
    let address = format!(in rt.alloc(); "127.0.0.1:{}", free_port(rt)?)?;
    let mut link = TcpListen::new(rt, address.as_str());
    let mut peer = TcpDial::new(rt, address.as_str());
    println!(rt; "sockets, dial {}", word(peer.dial()))?;
    println!(rt; "next {}", word(link.next()))?;
    println!(rt; "write {}", number(peer.write(b"ping")))?;
    let mut piece = [0; 8];
    println!(rt; "read {}", number(link.read(&mut piece)))?;
    println!(rt; "send {}", word(send_all(&mut link, b"pong!")))?;
    println!(rt; "read {}", number(peer.read(&mut piece)))?;
    link.rest();
    let start = Instant::now(rt)?;
    println!(rt; "read {}", number(link.read(&mut piece)))?;
    println!(rt; "within ten seconds {}", start.elapsed(rt)?.as_secs() < 10)?;
    println!(rt; "dial {}", word(peer.dial()))?;
    println!(rt; "read {}", number(link.read(&mut piece)))?;
    Ok(())
}

fn main(rt: HostRuntime) -> Result<(), Fail> {
    memory(&rt)?;
    memory_dial(&rt)?;
    sockets(&rt)?;
    let mut none = TcpListen::new(&rt, "-");
    println!(rt; "no address, next {}", word(none.next()))?;
    let mut none = TcpDial::new(&rt, "-");
    println!(rt; "no address, dial {}", word(none.dial()))?;
    Ok(())
}
