// Lines of text, their words, and the numbers and bytes that words spell: with this the programs that run vectors read their input.
// Each call takes any bytes: what is not there reads as an empty word or as 0.
// The definitions that the contracts cite are in specs/Parts.antt and specs/Digits.antt.
#![tactic(auto)]

ghost use Rattle.std.specs.Prelude.{◌≡◌, ◌++◌, ◌/◌, ◌<◌, ◌≤◌, min, leb, length, drop, position, IfOk};
ghost use Rattle.std.specs.Iterator.{item_count, YieldsFirstRef};
ghost use Rattle.lines.specs.Parts.{before, behind, lines_of};
ghost use Rattle.lines.specs.Digits.{digit_of, longer_by, number_of, bytes_of};

use std::io;
use std::io::Read;

// The lines of a text, from the first on.
#[derive(Drop)]
pub struct Lines<'a>(pub &'a [u8]);

impl<'a> Iterator for Lines<'a> {
    type Item = &'a [u8];

    ghost next_gives = { YieldsFirstRef (λ l. lines_of l.0.now) };

    ghost remaining = { item_count (λ l. lines_of l.0.now) };

    #[tactic(auto, using(crate::proofs::Parts::lines_none, crate::proofs::Parts::lines_more))]
    fn next(&mut self) -> Option<&'a [u8]> {
        if self.0.is_empty() {
            return None;
        }
        let (line, rest) = cut(self.0, b'\n');
        self.0 = rest;
        Some(line)
    }
}

// The bytes up to the first that is at most `stop`, and those behind it: a line for b'\n', a word for b' ', which a line's end ends too.
pub fn cut(s: &[u8], stop: u8) -> (&[u8], &[u8])
    ensures part { result.0.now ≡ before stop s.now }
    ensures rest { result.1.now ≡ behind stop s.now }
{
    match end_of(s, stop) {
        Some(end) => (&s[..end], &s[end + 1..]),
        None => (s, &s[s.len()..]),
    }
}

fn end_of(s: &[u8], stop: u8) -> Option<usize>
    ensures { result ≡ position (λ c. leb c stop) s.now }
{
    s.iter().position(|c| *c <= stop)
}

// The number that a word's digits spell in a base, or the largest of 64 bits where it is larger than that.
pub fn number(word: &[u8], base: u64) -> u64
    ensures { result ≡ number_of base word.now }
{
    word.iter().fold(0, |n, c| longer(n, base, digit(*c)))
}

fn longer(n: u64, base: u64, digit: u8) -> u64
    ensures { result ≡ longer_by base n digit }
{
    n.saturating_mul(base).saturating_add(digit as u64)
}

// What a digit stands for, decimal or hex; any other byte counts as 0.
#[tactic(auto, unfolding(crate::specs::Digits::digit_of))]
fn digit(c: u8) -> u8
    ensures value { result ≡ digit_of c }
    ensures small { result < 16 }
{
    match c {
        b'0'..=b'9' => c - b'0',
        b'a'..=b'f' => c - b'a' + 10,
        _ => 0,
    }
}

// Puts the bytes that the word's hex digits spell, two a byte, at the start of `out`, as many as it has room for, and says how many they are.
#[tactic(auto, using(crate::proofs::Digits::bytes_none))]
pub fn bytes(word: &[u8], out: &mut [u8]) -> usize
    ensures count { result ≡ min (length word.now / 2) (length out.old) }
    ensures written { out.new ≡ bytes_of word.now result ++ drop result out.old }
{
    let (pairs, _) = word.as_chunks::<2>();
    let count = out.len().min(pairs.len());
    // `out` by its index: a proof knows nothing of what `out.iter_mut().zip(pairs)` writes.
    for (i, [high, low]) in pairs[..count].iter().enumerate() {
        out[i] = digit(*high) * 16 + digit(*low);
    }
    count
}

// Reads until `room` is full or the input ends, and says how many bytes of it are filled.
pub fn read_full(input: &mut impl Read, room: &mut [u8]) -> io::Result<usize>
    ensures { IfOk result (λ n. n ≤ length room.new) }
{
    let mut done: usize = 0;
    while done < room.len() {
        let n = input.read(&mut room[done..])?;
        if n == 0 {
            break;
        }
        done += n;
    }
    Ok(done)
}
