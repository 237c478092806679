//! The requests that rows spell.

use mp_types::{Bytes, Posts, Request};
use std::alloc::{AllocError, Global};

/// The words of a row, and how often its call was made before.
#[derive(Drop)]
pub struct Row<'a> {
    pub words: Vec<&'a str>,
    pub turn: u64,
}

/// The word at a place; an empty one where there is none.
fn word<'a>(row: &Row<'a>, at: usize) -> &'a str {
    match row.words.get(at) {
        Some(word) => word,
        None => "",
    }
}

/// The number at a place, or 0 where it is none.
pub fn number(row: &Row<'_>, at: usize) -> u64 {
    let word = word(row, at);
    if word == "#" {
        row.turn
    } else {
        word.parse().unwrap_or(0)
    }
}

/// The number at a place, below 256.
pub fn byte(row: &Row<'_>, at: usize) -> u8 {
    (number(row, at) % 256) as u8
}

/// The tag at a place.
fn tag(row: &Row<'_>, at: usize) -> u16 {
    (number(row, at) % 65_536) as u16
}

/// The source and the tag behind the request's name, each of which may be `any`.
fn selection(row: &Row<'_>) -> (Option<u8>, Option<u16>) {
    let source = if word(row, 4) == "any" {
        None
    } else {
        Some(byte(row, 4))
    };
    let tag = if word(row, 5) == "any" {
        None
    } else {
        Some(tag(row, 5))
    };
    (source, tag)
}

/// `send TAG LETTERS` or `ssend TAG LETTERS`, to rank 1.
fn send(alloc: Global, row: &Row<'_>) -> Result<Option<Request>, AllocError> {
    let letters = word(row, 5).as_bytes();
    if letters.len() > 4096 {
        return Ok(None);
    }
    Ok(Some(Request::Send {
        sync: word(row, 3) == "ssend",
        comm: 0,
        dest: 1,
        tag: tag(row, 4),
        bytes: Bytes::from_slice(alloc, letters)?,
    }))
}

/// `all FIRST LAST`: all posts from the first to the last.
fn all(alloc: Global, row: &Row<'_>) -> Result<Option<Request>, AllocError> {
    let mut posts = Vec::new(alloc);
    for post in number(row, 4)..=number(row, 5) {
        posts.push(post)?;
    }
    Ok(Some(Request::All {
        posts: Posts::from_vec(posts)?,
    }))
}

/// `recv`, `irecv`, `probe` or `claim`, with a source and a tag.
fn selecting(row: &Row<'_>, name: &str) -> Option<Request> {
    let (comm, (source, tag)) = (0, selection(row));
    if name == "recv" || name == "irecv" {
        let now = name == "recv";
        return Some(Request::Recv {
            now,
            comm,
            source,
            tag,
        });
    }
    if name == "probe" {
        return Some(Request::Probe { comm, source, tag });
    }
    if name == "claim" {
        return Some(Request::Claim { comm, source, tag });
    }
    None
}

/// `collect POST`, `finished POST`, `claimed MESSAGE`, `iclaimed MESSAGE` or `cut LINK`, or one of those with a source.
fn numbered(row: &Row<'_>, name: &str) -> Option<Request> {
    let number = number(row, 4);
    if name == "collect" {
        return Some(Request::Collect { post: number });
    }
    if name == "finished" {
        return Some(Request::Finished { post: number });
    }
    if name == "claimed" || name == "iclaimed" {
        return Some(Request::Claimed {
            now: name == "claimed",
            message: number,
        });
    }
    if name == "cut" {
        return Some(Request::Cut { link: byte(row, 4) });
    }
    selecting(row, name)
}

/// The request from a row's fourth word on; `init send|recv PEER TAG PARTS SIZE` is one too.
pub fn request(alloc: Global, row: &Row<'_>) -> Result<Option<Request>, AllocError> {
    let name = word(row, 3);
    if name == "send" || name == "ssend" {
        return send(alloc, row);
    }
    if name == "all" {
        return all(alloc, row);
    }
    if name == "init" {
        return Ok(Some(Request::Init {
            sending: word(row, 4) == "send",
            comm: 0,
            peer: byte(row, 5),
            tag: tag(row, 6),
            parts: byte(row, 7),
            size: byte(row, 8),
        }));
    }
    Ok(numbered(row, name))
}
