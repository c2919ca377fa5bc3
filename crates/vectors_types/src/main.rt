// Runs the calls of `types` on the pairs of standard input and prints what each says, a line a pair: `aligned 1 4 aligned 1 5` is decided with
// room for any stretch, `.. room 8` with a buffer of 8 bytes that is printed whole afterwards, and `.. judge` is judged.
// What it must print is worked out from the meaning of types, by `python3 tools/pairs.py file crates/vectors_types/stdin`.
#![tactic(auto)]

mod runs;
mod said;
mod sides;

use runs::Runs;
use said::{Decided, Judged};
use sides::Side;
use std::io;
use types::Decision;

// So many bytes of the input are looked at.
const LOOKED_AT: usize = 65_536;

fn main(rt: HostRuntime) -> io::Result<()> {
    let mut input = [0; LOOKED_AT];
    let n = lines::read_full(&mut rt.reader(), &mut input)?;
    for line in lines::Lines(&input[..n]) {
        one_pair(&rt, line)?;
    }
    Ok(())
}

// The pair of a line.
fn one_pair(rt: &impl Print, line: &[u8]) -> io::Result<()> {
    let (giver, rest) = sides::one_side(line);
    let (wanted, rest) = sides::one_side(rest);
    let (task, rest) = lines::cut(rest, b' ');
    print!(rt; "{giver} for {wanted}")?;
    match task.first() {
        Some(b'r') => {
            let (room, _) = lines::cut(rest, b' ');
            in_room(rt, giver, wanted, lines::number(room, 10))
        }
        Some(b'j') => {
            let answer = types::judge(giver.kind, giver.slots, wanted.kind, wanted.slots);
            println!(rt; " judged: {}", Judged(answer))
        }
        _ => decided(rt, giver, wanted),
    }
}

// A buffer with room for any stretch, and no byte in it that an allocation has.
const SEVENS: [u8; 12288] = [7; 12288];

// The answer, and the allocation where there is one.
fn decided(rt: &impl Print, giver: Side, wanted: Side) -> io::Result<()> {
    let mut out = SEVENS;
    let answer = decide(giver, wanted, &mut out);
    print!(rt; ": {}", Decided(answer))?;
    if let Decision::Fails { length, .. } = answer {
        print!(rt; "{}", Runs(&out[..out.len().min(length as usize)]))?;
    }
    println!(rt; "")
}

// The answer with a buffer of `room` bytes, and all of the buffer.
fn in_room(rt: &impl Print, giver: Side, wanted: Side, room: u64) -> io::Result<()> {
    let mut out = SEVENS;
    print!(rt; " in room {room}")?;
    if room <= 12288 {
        let out = &mut out[..room as usize];
        let answer = decide(giver, wanted, out);
        println!(rt; ": {}{}", Decided(answer), Runs(out))?;
    }
    Ok(())
}

fn decide(giver: Side, wanted: Side, out: &mut [u8]) -> Decision {
    types::decide(giver.kind, giver.slots, wanted.kind, wanted.slots, out)
}
