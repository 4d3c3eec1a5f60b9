// How long reading a sheet takes: texts of four shapes, each in three lengths, read again and again.
//
// What each text comes to is printed, and is the same in every run. The times go to standard error: the shortest of all
// reads of a text, which says most on a machine that does other work too, and the average.
#![tactic(auto)]

mod shape;

use shape::Shape;
use std::io;
use timing::timed;

// How often each text is read.
const READS: u32 = 500;

fn main(rt: HostRuntime) -> anyhow::Result<()> {
    for shape in [Shape::Rules, Shape::Blanks, Shape::Comments, Shape::Number] {
        for bytes in [4096, 8192, 16_384] {
            let text = shape.text(rt.alloc(), bytes)?;
            measure(&rt, shape.name(), text.as_bytes())?;
        }
    }
    Ok(())
}

// Reads a text again and again, and prints what it comes to and how long a read takes.
fn measure(rt: &HostRuntime, name: &str, text: &[u8]) -> io::Result<()> {
    let mut table = [0; sheet::WORDS];
    let times = timed(rt, READS, || {
        let _ = sheet::read(text, &mut table);
    })?;
    let shortest = times.shortest.as_nanos();
    let average = times.average.as_nanos();
    let bytes = text.len();
    let rows = table[1];
    let sum = checksum(&table);
    println!(rt; "{name}, {bytes} bytes: rows {rows}, checksum {sum}")?;
    eprintln!(rt; "{name}, {bytes} bytes: shortest {shortest} ns, on average {average} ns")
}

// A number that depends on the size of every word.
fn checksum(table: &[i32]) -> u32 {
    table.iter().fold(
        0u32,
        |sum, word| sum.wrapping_mul(31).wrapping_add(word.unsigned_abs()),
    )
}
