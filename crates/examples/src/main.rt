// Plays the example sessions of data/ and holds the listing of each to the one beside it: NAME.hex is the session as hex text,
// NAME.txt its listing; NAME.md is a document with both in its blocks. One line is written for each. Nothing is promised of what is
// written; every function is proved safe.
#![tactic(auto)]

use console::room;
use difference::first_difference;
use document::blocks;
use faults::Wrong;
use files::read;
use hex_text::decode;
use listing::list;
use std::io;

mod difference;
mod document;
mod faults;
mod files;

// There is as large a sample memory as `rehearse` has, and room for the listing of any session: 160 + 22 · 32,768 bytes, since hex text of
// 65,536 bytes holds no more than 32,768.
fn compare(session: &[u8], expected: &[u8]) -> Result<(), Wrong> {
    let mut memory = [0u32; 16384];
    let mut out = room::<721056>();
    let Ok(n) = list(session, &mut memory, &mut out) else {
        // never with the room above
        return Err(Wrong::TooLong);
    };
    match first_difference(&out[..n.min(out.len())], expected) {
        None => Ok(()),
        Some(place) => Err(Wrong::DiffersAt(place)),
    }
}

fn play(text: &[u8], expected: &[u8]) -> Result<(), Wrong> {
    let mut session = [0u8; 65537];
    let n = decode(text, &mut session)?;
    compare(&session[..n.min(session.len())], expected)
}

// NAME.hex against NAME.txt
fn play_files(rt: &HostRuntime, name: &str) -> Result<(), Wrong> {
    let (mut text, mut expected) = ([0u8; 65537], [0u8; 65537]);
    let text = read(rt, name, ".hex", &mut text)?;
    let expected = read(rt, name, ".txt", &mut expected)?;
    play(text, expected)
}

// The blocks of a document: those of bytes, joined, are a session, and the one of a listing is its listing.
fn play_document(rt: &HostRuntime, name: &str) -> Result<(), Wrong> {
    let mut doc = [0u8; 65537];
    let doc = read(rt, name, ".md", &mut doc)?;
    let (mut text, mut expected) = ([0u8; 65537], [0u8; 65537]);
    play(
        blocks(doc, b"```hex", &mut text),
        blocks(doc, b"```listing", &mut expected),
    )
}

fn say(rt: &impl Print, name: &str, outcome: Result<(), Wrong>) -> io::Result<()> {
    match outcome {
        Ok(()) => println!(rt; "{name} as expected"),
        Err(why) => println!(rt; "{name}{} {why}", why.ending()),
    }
}

fn main(rt: HostRuntime) -> io::Result<()> {
    let names = [
        "scope",
        "sequential-direct",
        "simultaneous-direct",
        "continuous",
        "periodic",
        "burst",
        "sequencing",
    ];
    for name in names {
        say(&rt, name, play_files(&rt, name))?;
    }
    say(&rt, "SESSION", play_document(&rt, "SESSION"))
}
