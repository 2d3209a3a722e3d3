// File A in both forms, and with its steps written as a list, with lent areas of several lengths, full of other bytes beforehand: what the call answers,
// and every byte of both areas afterwards.
#![tactic(auto)]

ghost use Rattle.std.specs.Prelude.{◌≤◌};

mod files;

use allotment::{Answer, allot};
use files::{FILE_A, LIST_A, WIDE_A};
use std::io;

// The bytes of an area, on one line.
fn show_area(rt: &impl Print, bytes: &[u8]) -> io::Result<()> {
    print!(rt; "area")?;
    for byte in bytes {
        print!(rt; " {byte}")?;
    }
    println!(rt)
}

// Lends so many bytes of an answer area and of a work area, both with room to spare, to a call, and prints the answer and both areas whole.
fn show(rt: &impl Print, file: &[u8], answering: usize, working: usize) -> io::Result<()>
    requires answering_bound { answering ≤ 40 }
    requires working_bound { working ≤ 32 }
{
    let mut answer = [170; 40];
    let mut work = [187; 32];
    match allot(file, &mut answer[..answering], &mut work[..working]) {
        Answer::Allotted(offers) => println!(rt; "offers {offers}")?,
        Answer::Refused { number, offset } => println!(rt; "refused {number} at {offset}")?,
    }
    show_area(rt, &answer)?;
    show_area(rt, &work)
}

fn main(rt: HostRuntime) -> io::Result<()> {
    // 3n + 12m = 21 and 8n = 24 for file A; 18 bytes hold no type
    show(&rt, FILE_A, 18, 24)?;
    show(&rt, FILE_A, 20, 24)?;
    show(&rt, FILE_A, 21, 24)?;
    show(&rt, FILE_A, 21, 23)?;
    show(&rt, FILE_A, 22, 26)?;
    show(&rt, FILE_A, 40, 32)?;
    // 5n + 12m = 27 for file A in the wide form
    show(&rt, WIDE_A, 26, 24)?;
    show(&rt, WIDE_A, 27, 24)?;
    show(&rt, WIDE_A, 40, 32)?;
    // 3n + 24m = 33 for file A with its steps written as a list
    show(&rt, LIST_A, 32, 24)?;
    show(&rt, LIST_A, 33, 24)?;
    show(&rt, LIST_A, 40, 32)?;
    // a refused file: file A without its last byte
    show(&rt, &FILE_A[..71], 40, 32)
}
