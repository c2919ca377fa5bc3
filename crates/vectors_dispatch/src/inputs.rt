// What the words of a case's line hand to a call: settings, supply bytes, decline words and room.
ghost use Rattle.std.specs.Prelude.{◌≤◌, length};

use dispatch::Setting;

#[derive(Drop)]
pub struct Inputs<'a> {
    pub settings: &'a [u8],
    pub supplies: &'a [u8],
    pub declines: &'a [u64],
    pub room: usize,
}

// At most so many supply bytes and decline words are looked at.
pub const MOST: usize = 64;

impl<'a> Inputs<'a> {
    // From the words, the first of which says what is done. `supplies` and `declines` are room for what is looked at.
    pub fn parse(words: &'a [u8], supplies: &'a mut [u8], declines: &'a mut [u64]) -> Self {
        let (_, rest) = lines::cut(words, b' ');
        let (settings, rest) = lines::cut(rest, b' ');
        let (bytes, rest) = lines::cut(rest, b' ');
        let (numbers, rest) = lines::cut(rest, b' ');
        let (room, _) = lines::cut(rest, b' ');
        let n = lines::bytes(bytes, supplies);
        let k = hex_words(numbers, declines);
        Inputs {
            settings,
            supplies: &supplies[..n],
            declines: &declines[..k],
            room: lines::number(room, 10) as usize,
        }
    }

    // The setting of slot i, in a word with a digit for each: 0 off, 1 on.
    pub fn setting_of(&self, i: usize) -> Setting {
        on_if(self.settings.get(i) == Some(&b'1'))
    }

    // The setting of all slots, as `off` or `on` spells it.
    pub fn setting(&self) -> Setting {
        on_if(self.settings.get(1) == Some(&b'n'))
    }
}

fn on_if(is: bool) -> Setting {
    if is { Setting::On } else { Setting::Off }
}

// Puts the numbers that the word's hex digits spell, a comma between two, at the start of `out`, and says how many they are: none for `-`.
fn hex_words(word: &[u8], out: &mut [u64]) -> usize
    ensures { result ≤ length out.new }
{
    let mut rest = word;
    for n in 0..out.len() {
        if rest.first().is_none_or(|c| *c < b'0') {
            return n;
        }
        let (digits, behind) = lines::cut(rest, b',');
        out[n] = lines::number(digits, 16);
        rest = behind;
    }
    out.len()
}
