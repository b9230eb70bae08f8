//! What no clause says of the serving of connections: worked exchanges, cut in several ways, and calls outside that fail. Each case
//! is a row of a table in data/, and what comes of it is a line of stdout.
#![tactic(auto)]

use case_tables::{Row, Tell, part, rows, show, tell_tables};
use event_frame::crc32;
use http_asking::request_text;
use network_ports::{Dial, Listen, MemConnection, MemListen, TcpDial, TcpListen};
use select_http::{Served, serve_connection};
use select_ports::{Limits, MemObject, MemStore};
use std::alloc::Global;
use std::net::{Net, OpenListener, TcpListener};
use std::rt::Files;
use std::test::Fail;

/// The bytes of an answer that are printed; of longer ones the length and the CRC-32.
const MOST_SHOWN: usize = 300;

/// A row: the most bytes of a call on the link, the numbers of the calls on the link and on the store that fail (0: none), and
/// the bytes that come. A field `|` begins another connection.
struct Exchange;

impl Tell for Exchange {
    fn tell<R: Files + AllocGlobal>(&self, rt: &R, row: &Row) -> Result<String, Fail> {
        let alloc = rt.alloc();
        let mut link = link_of(alloc, row)?;
        let mut store = store_of(alloc, row)?;
        let mut told = String::new(alloc);
        for _ in 0..link.connections().len() {
            let served = serve_next(alloc, &mut link, &mut store)?;
            part(&mut told)?;
            write!(told, "{} {:?}", served.requests, served.end)?;
        }
        for connection in link.connections() {
            tell_written(&mut told, connection.written.as_slice())?;
        }
        Ok(told)
    }
}

fn serve_next(alloc: Global, link: &mut MemListen, store: &mut MemStore) -> Result<Served, Fail> {
    if link.next().is_err() {
        return Err(Fail::new("no connection"));
    }
    let limits = Limits { longest: 1_048_576 };
    Ok(serve_connection(alloc, link, store, limits))
}

fn tell_written(told: &mut String, written: &[u8]) -> Result<(), Fail> {
    part(told)?;
    if written.len() <= MOST_SHOWN {
        return show(told, written);
    }
    write!(told, "{} bytes {:08x}", written.len(), crc32(written))?;
    Ok(())
}

fn connections_of(alloc: Global, row: &Row) -> Result<Vec<MemConnection>, Fail> {
    let mut connections = Vec::new(alloc);
    let mut incoming = Vec::new(alloc);
    for field in 3..row.count() {
        let bytes = row.bytes(field)?;
        if bytes == b"|".as_slice() {
            connections.push(connection(alloc, incoming))?;
            incoming = Vec::new(alloc);
        } else {
            incoming.extend_from_slice(bytes)?;
        }
    }
    connections.push(connection(alloc, incoming))?;
    Ok(connections)
}

fn connection(alloc: Global, incoming: Vec<u8>) -> MemConnection {
    MemConnection {
        incoming,
        taken: 0,
        written: Vec::new(alloc),
        broke: false,
    }
}

fn link_of(alloc: Global, row: &Row) -> Result<MemListen, Fail> {
    let most = row.number(0)? as usize;
    if most == 0 {
        return Err(Fail::new("no length"));
    }
    let lengths = vec![in alloc; most]?;
    let fails = vec![in alloc; row.number(1)?]?;
    Ok(MemListen::new(connections_of(alloc, row)?, lengths, fails))
}

fn store_of(alloc: Global, row: &Row) -> Result<MemStore, Fail> {
    let objects = vec![in alloc;
        MemObject {
            name: String::from_str(alloc, "a.csv")?,
            bytes: Vec::from_slice(alloc, b"id,name\n1,Ann\n2,Bo\n")?,
        },
    ]?;
    let fails = vec![in alloc; row.number(2)?]?;
    Ok(MemStore::new(objects, Vec::new(alloc), fails))
}

/// A port that nobody listens at.
fn free_port<R: Net>(rt: &R) -> Result<u16, Fail> {
    let listener = TcpListener::bind(rt, "127.0.0.1:0")?;
    Ok(listener.local_addr()?.port())
}

/// The bytes that come, until so many are there or no more come.
fn read_all<R: Net>(alloc: Global, peer: &mut TcpDial<R>, enough: usize) -> Result<Vec<u8>, Fail> {
    let mut all = Vec::new(alloc);
    let mut piece = [0; 1_024];
    for _ in 0..1_000 {
        if all.len() >= enough {
            return Ok(all);
        }
        let Ok(n) = peer.read(&mut piece) else {
            return Ok(all);
        };
        if n == 0 {
            return Ok(all);
        }
        all.extend_from_slice(&piece[..n])?;
    }
    Ok(all)
}

/// Both sides in one thread: the system takes the connection and the request before `next` does.
fn tell_sockets<R: Net + AllocGlobal>(rt: &R, request: &Row) -> Result<String, Fail> {
    let alloc = rt.alloc();
    let mut told = String::new(alloc);
    let address = format!(in alloc; "127.0.0.1:{}", free_port(rt)?)?;
    let mut link = TcpListen::new(rt, address.as_str());
    let mut peer = TcpDial::new(rt, address.as_str());
    let mut store = store_of(alloc, request)?;
    if peer.dial().is_err() || link.next().is_err() {
        return Err(Fail::new("no connection"));
    }
    if peer.write(request.joined(alloc, 3)?.as_slice()).is_err() {
        return Err(Fail::new("no write"));
    }
    let limits = Limits { longest: 1_048_576 };
    let served = serve_connection(alloc, &mut link, &mut store, limits);
    write!(told, "{} {:?}", served.requests, served.end)?;
    let reply = read_all(alloc, &mut peer, request.number(0)? as usize)?;
    tell_written(&mut told, reply.as_slice())?;
    Ok(told)
}

/// The request of a client, for a name and a body.
fn tell_asked(alloc: Global, asked: &Row) -> Result<String, Fail> {
    let request = request_text(alloc, asked.text(0)?, asked.bytes(1)?)?;
    let mut told = String::new(alloc);
    show(&mut told, request.as_slice())?;
    Ok(told)
}

fn main(rt: HostRuntime) -> Result<(), Fail> {
    tell_tables(&rt, &[("exchanges.tsv", Exchange)])?;
    for request in rows(&rt, "sockets.tsv")?.iter() {
        let told = tell_sockets(&rt, request)?;
        println!(rt; "sockets.tsv:{}: {told}", request.line)?;
    }
    for asked in rows(&rt, "asked.tsv")?.iter() {
        let told = tell_asked(rt.alloc(), asked)?;
        println!(rt; "asked.tsv:{}: {told}", asked.line)?;
    }
    Ok(())
}
