// Replays recorded answers: reads the recorded list from standard input, asks each question of the exported call and of
// the calls by value, and says with how many lines both agree and how many differ.
#![tactic(auto)]

mod ask;
mod by_value;
mod list;
mod numbered;
mod reply;

use list::Reading;
use std::io;
use std::io::Read;

// What cannot be written is left out: there is no other place to say so.
fn cannot_read(rt: &HostRuntime) {
    let _ = rt.stderr().write_all(b"replay: cannot read\n");
}

// Takes the bytes of a block.
fn take(reading: &mut Reading, block: &[u8]) {
    for b in block {
        reading.byte(*b);
    }
}

// A proved loop has to end, and nothing says that the input does: it counts its reads, up to a number that no run
// reaches.
fn read_all(rt: &HostRuntime, block: &mut [u8]) -> Reading {
    let mut reading = Reading::new();
    for _ in 0..u64::MAX {
        match rt.stdin().read(block) {
            Ok(0) => return reading,
            Ok(n) => take(&mut reading, &block[0..n]),
            Err(_) => {
                cannot_read(rt);
                return reading;
            }
        }
    }
    reading
}

// How many bytes are read at a time.
const BUFFER_BYTES: usize = 65_536;

fn main(rt: HostRuntime) -> io::Result<()> {
    let mut block = [0u8; BUFFER_BYTES];
    let reading = read_all(&rt, &mut block);
    println!(rt;
        "{} recorded answers agree, {} differ",
        reading.agreed, reading.differed
    )?;
    if 0 < reading.first {
        println!(rt; "the first that differs is line {}", reading.first)?;
    }
    Ok(())
}
