// Lists the plans of standard input, one a line: `example 01e8..` is a label and the bytes in hex. Under its label each listing is printed, and then
// what comes of a room that is one byte short.
// The plans are those of examples/. What it must print is worked out from documents 01 and 02, by `python3 tools/listing.py expect`;
// `python3 tools/listing.py plans` makes its input.
#![tactic(auto)]

use lines::Lines;
use listing::Short;
use std::io;

// So many bytes of the input are looked at.
const LOOKED_AT: usize = 65_536;

// A byte that no listing has.
const UNWRITTEN: u8 = 255;

fn main(rt: HostRuntime) -> io::Result<()> {
    let mut input = [0; LOOKED_AT];
    let n = lines::read_full(&mut rt.reader(), &mut input)?;
    for line in Lines(&input[..n]) {
        one_plan(&rt, line)?;
    }
    Ok(())
}

// The plan of a line.
fn one_plan(rt: &impl Print, line: &[u8]) -> io::Result<()> {
    let (label, rest) = lines::cut(line, b' ');
    let (digits, _) = lines::cut(rest, b' ');
    let mut plan = [0; 4096];
    let n = lines::bytes(digits, &mut plan);
    rt.write_all(label)?;
    println!(rt; ":")?;
    list(rt, &plan[..n], &mut [0; 4096])
}

fn list(rt: &impl Print, plan: &[u8], room: &mut [u8]) -> io::Result<()> {
    match listing::list(plan, room) {
        Ok(n) => {
            rt.write_all(&room[..n])?;
            if 0 < n {
                list_short(rt, plan, &mut room[..n - 1])?;
            }
            Ok(())
        }
        Err(Short) => println!(rt; "too little room"),
    }
}

// The same in a room that is one byte short.
fn list_short(rt: &impl Print, plan: &[u8], room: &mut [u8]) -> io::Result<()> {
    room.fill(UNWRITTEN);
    match listing::list(plan, room) {
        Ok(_) => print!(rt; "one byte short: written")?,
        Err(Short) => print!(rt; "one byte short: refused 17")?,
    }
    if room.iter().all(|byte| *byte == UNWRITTEN) {
        println!(rt; ", nothing written")
    } else {
        println!(rt; ", something written")
    }
}
