//! Connections that the server has ended, until their clients have seen it.

use std::io::Read;
use std::net::TcpStream;

/// How many connections that the server has ended stay open for what their clients still send.
const OPEN: usize = 8;

/// The most pieces of what a client still sends that are taken at a time.
const PIECES: usize = 64;

/// How many bytes of what a client still sends are taken at most in one piece.
const PIECE_LEN: usize = 4_096;

/// Reads and drops what has come over a connection that was ended: a stream that is closed with
/// unread bytes would be reset, and its client might lose the last answer.
fn discard(stream: &mut TcpStream) {
    if stream.set_nonblocking(true).is_err() {
        return;
    }
    let mut piece = [0; PIECE_LEN];
    for _ in 0..PIECES {
        match stream.read(&mut piece) {
            Ok(0) | Err(_) => return,
            Ok(_) => {}
        }
    }
}

/// The connections that were ended last. Each stays open until `OPEN` others have followed it, so
/// that a request that its client still sends is met by the end, and not by a reset.
#[derive(Drop)]
pub(crate) struct Ended {
    streams: [Option<TcpStream>; OPEN],
    turn: usize,
}

impl Ended {
    pub(crate) fn new() -> Ended {
        Ended {
            streams: [None, None, None, None, None, None, None, None],
            turn: 0,
        }
    }

    /// Takes a connection whose sending side was ended, and closes the one that was taken `OPEN`
    /// before it.
    pub(crate) fn add(&mut self, mut stream: TcpStream) {
        discard(&mut stream);
        let place = &mut self.streams[self.turn % OPEN];
        if let Some(oldest) = place {
            discard(oldest);
        }
        *place = Some(stream);
        self.turn = self.turn.wrapping_add(1);
    }
}
