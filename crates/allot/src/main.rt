// The program: reads a round file from standard input and prints its page, or the line of its refusal.
#![tactic(auto)]

ghost use Rattle.std.specs.Prelude.{◌≡◌, ◌≤◌, true, length, take};
ghost use Rattle.std.specs.Io.KnownBytes.{Consumes, IsAtEnd};
ghost use Rattle.page.specs.Page.{printed};

use page::{page_room, put_page};
use std::fmt;
use std::io::Read;

// Why nothing was printed, or not all of it.
#[derive(Drop)]
enum Failure {
    Reading,
    Writing,
}

impl fmt::Display for Failure {
    fn fmt<W: fmt::Write>(&self, f: &mut fmt::Formatter<W>) -> fmt::Result {
        match self {
            Failure::Reading => write!(f, "the input could not be read"),
            Failure::Writing => write!(f, "the page could not be written"),
        }
    }
}

// Reads until the room is full, the input ends or a read fails: how many bytes it read, which stand at the front of the room in their order. A loop by
// length, since only a read tells how many bytes it brought.
fn read_full<R: Read>(from: &mut R, room: &mut [u8]) -> usize
    ensures bound { result ≤ length room.new }
    ensures bytes { Consumes (R.remaining from.old) (R.remaining from.new) (take result room.new) }
{
    let mut size = 0;
    while size < room.len() {
        match from.read(&mut room[size..]) {
            Ok(0) | Err(_) => break,
            Ok(more) => size += more,
        }
    }
    size
}

// Whether the input has ended: a read that fails, or that brings something more, tells that it has not.
fn ended<R: Read>(from: &mut R) -> bool
    ensures { result ≡ true → IsAtEnd (R.remaining from.new) }
{
    matches!(from.read(&mut [0; 1]), Ok(0))
}

// Hands what is printed for an input to standard output, by all of its bytes or its first 65,537.
fn hand_out(rt: &impl Print, file: &[u8], text: &[u8]) -> Result<(), Failure>
    requires { text.now ≡ printed file.now }
{
    rt.write_all(text).map_err(|_| Failure::Writing)
}

// Reads as much of the input as decides what is printed (law `first_bytes` of `page`), the longest input that is read and one byte more, and prints it.
fn run(rt: &HostRuntime) -> Result<(), Failure> {
    let mut input = [0; 65537];
    let mut from = rt.stdin();
    let size = read_full(&mut from, &mut input);
    if size < input.len() && !ended(&mut from) {
        return Err(Failure::Reading);
    }
    let mut page = page_room();
    let file = &input[..size];
    let length = put_page(&mut page, file);
    hand_out(rt, file, &page[..length])
}

fn main(rt: HostRuntime) {
    if let Err(failure) = run(&rt) {
        // Where this fails too, there is nobody left to tell.
        let _ = eprintln!(rt; "allot: {failure}");
    }
}
