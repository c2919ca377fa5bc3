// Bytes as runs.
ghost use Rattle.std.specs.Prelude.{◌+◌, ◌<◌, ◌≤◌, length};

use std::fmt;

// Bytes as runs behind a colon, `: 0x5 1x2` for five zeros and two ones, and two runs that follow on themselves once, `(0x1 1x3)x1024`.
#[derive(Drop)]
pub struct Runs<'a>(pub &'a [u8]);

impl fmt::Display for Runs<'_> {
    fn fmt<W: fmt::Write>(&self, f: &mut fmt::Formatter<W>) -> fmt::Result {
        let mut s = self.0;
        if !s.is_empty() {
            write!(f, ":")?;
        }
        while let Some((first, tail)) = s.split_first() {
            // The two runs at the front, and how often they follow on themselves.
            let (n, others) = copies(&s[..1], tail);
            let n = n + 1;
            let Some((second, tail)) = others.split_first() else {
                return write!(f, " {first}x{n}");
            };
            let (m, behind) = copies(&others[..1], tail);
            let m = m + 1;
            let (more, behind) = copies(&s[..s.len() - behind.len()], behind);
            if more == 0 {
                write!(f, " {first}x{n}")?;
                s = others;
            } else {
                let turns = more + 1;
                write!(f, " ({first}x{n} {second}x{m})x{turns}")?;
                s = behind;
            }
        }
        Ok(())
    }
}

// How often the block stands at the front, and what stands behind.
fn copies<'a>(block: &[u8], s: &'a [u8]) -> (usize, &'a [u8])
    requires { 0 < length block.now }
    ensures { result.0 + length result.1.now ≤ length s.now }
{
    let mut n = 0;
    let mut rest = s;
    while let Some(behind) = rest.strip_prefix(block) {
        n += 1;
        rest = behind;
    }
    (n, rest)
}
