// Reads the plan files of standard input and prints what `reader` says of each, a line a file: `example 01e8.. 3` is a label, the bytes in hex, and,
// where it stands there, a node whose name is asked for besides those of an accepted plan. In edition 2 a node's D and W stand behind its name.
// What it must print is worked out from documents 01 and 02, by `python3 tools/plans.py expect`; `python3 tools/plans.py vectors` makes its input.
#![tactic(auto)]

use lines::Lines;
use plans::Plan;
use std::io;

// So many bytes of the input are looked at.
const LOOKED_AT: usize = 524_288;

fn main(rt: HostRuntime) -> io::Result<()> {
    let mut input = room();
    let n = lines::read_full(&mut rt.reader(), &mut input)?;
    for line in Lines(&input[..n]) {
        one_file(&rt, line)?;
    }
    Ok(())
}

// A function of its own, since an array of this length is more than a proof of `main` bears.
fn room() -> [u8; LOOKED_AT] {
    [0; LOOKED_AT]
}

// The file of a line.
fn one_file(rt: &impl Print, line: &[u8]) -> io::Result<()> {
    let (label, rest) = lines::cut(line, b' ');
    let (digits, node) = lines::cut(rest, b' ');
    let mut room = [0; 3072];
    let n = lines::bytes(digits, &mut room);
    let file = &room[..n];
    rt.write_all(label)?;
    print!(rt; ": ")?;
    read(rt, file)?;
    if !node.is_empty() {
        let (digits, _) = lines::cut(node, b' ');
        ask(rt, file, lines::number(digits, 10) as usize)?;
    }
    println!(rt; "")
}

// The answer, and the names of an accepted plan.
fn read(rt: &impl Print, file: &[u8]) -> io::Result<()> {
    match reader::read(file) {
        Ok(plan) => {
            print!(rt; "accepted {}", plan.size)?;
            nodes(rt, file, &plan)
        }
        Err(refusal) => {
            print!(rt; "refused {}", refusal.number())?;
            match refusal.place() {
                Some(place) => print!(rt; " at {place}"),
                None => Ok(()),
            }
        }
    }
}

// The edition, where it is not the first, and the names; D and W of a node stand only there.
fn nodes(rt: &impl Print, file: &[u8], plan: &Plan) -> io::Result<()> {
    if plan.edition != 1 {
        print!(rt; " of edition {}", plan.edition)?;
    }
    print!(rt; ":")?;
    for (i, node) in plan.nodes.iter().take(plan.size).enumerate() {
        print!(rt; " ")?;
        rt.write_all(reader::name(file, i))?;
        if plan.edition != 1 {
            print!(rt; " {}/{}", node.misses.d, node.misses.w)?;
        }
    }
    Ok(())
}

// The name of node i. It is empty where the plan is refused or has no such node.
fn ask(rt: &impl Print, file: &[u8], i: usize) -> io::Result<()> {
    let name = reader::name(file, i);
    print!(rt; ", node {i} ")?;
    if name.is_empty() {
        print!(rt; "has no name")
    } else {
        print!(rt; "is ")?;
        rt.write_all(name)
    }
}
