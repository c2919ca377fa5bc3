// The program of document 01: it reads standard input whole and prints the listing of the plan that it holds. The text is `listing::list`'s, which is
// proved to be the one that crates/listing/specs/Text.antt defines; no contract can say what is read and written here.
#![tactic(auto)]

use listing::Short;
use std::io;
use std::io::Read;

// Of the input so many bytes are kept: what stands beyond byte 3,061 changes nothing (`LongerListed` of crates/listing).
const KEPT: usize = 4096;

// So many more bytes are read at most, since every loop has to end: 2^52.
const MOST: u64 = 1 << 52;

fn main(rt: HostRuntime) -> io::Result<()> {
    let mut input = rt.reader();
    let mut plan = [0; KEPT];
    let n = lines::read_full(&mut input, &mut plan)?;
    // To the end, so that whoever writes there can write all of it.
    io::copy(&mut input.take(MOST), &mut io::sink())?;
    print(&rt, &plan[..n], &mut [0; 4096])
}

// Prints the listing of a plan, by way of a room: one of 3,708 bytes always suffices.
fn print(rt: &impl Print, plan: &[u8], room: &mut [u8]) -> io::Result<()> {
    match listing::list(plan, room) {
        Ok(n) => rt.write_all(&room[..n]),
        Err(Short) => Ok(()),
    }
}
