// The page that a text is written on, one piece behind the other. A clause sees a page as the bytes written so far.
ghost use Rattle.std.specs.Prelude.{◌≡◌, [], ◌∷◌, ◌++◌, ◌≤◌, List, ℕ, length, take};
ghost use Rattle.listing.specs.Text.{decimal};
ghost use Rattle.listing.specs.Page.{OnPage};

use std::marker::Model;

// No text is longer than 3,708 bytes.
#[derive(Drop)]
pub struct Page {
    bytes: [u8; 4096],
    len: usize,
}

impl Model for Page {
    ghost Value = { List ℕ };

    ghost view = { λ p. take p.len p.bytes };

    ghost invariant = { λ p. p.len ≤ 4096 };
}

impl Page {
    pub fn blank() -> Page
        ensures { result ≡ [] }
    {
        Page {
            bytes: [0; 4096],
            len: 0,
        }
    }

    // What is written so far.
    pub fn written(&self) -> &[u8]
        ensures { result.now ≡ self.now }
    {
        &self.bytes[..self.len]
    }

    // Bytes as they are.
    pub fn put(&mut self, word: &[u8])
        requires { OnPage (self.old ++ word.now) }
        ensures { self.new ≡ self.old ++ word.now }
    {
        let end = self.len + word.len();
        self.bytes[self.len..end].copy_from_slice(word);
        self.len = end;
    }

    // One byte.
    pub fn put_byte(&mut self, b: u8)
        requires { OnPage (self.old ++ (b ∷ [])) }
        ensures { self.new ≡ self.old ++ (b ∷ []) }
    {
        self.put(&[b]);
    }

    // A number in decimal: the digits before the last one, and the last one. It is printed here, since a `write!` to a page could answer an error,
    // and no contract says when it does not.
    #[tactic(auto, using(crate::proofs::Digits::decimal_one))]
    pub fn put_number(&mut self, n: u64)
        requires { OnPage (self.old ++ decimal n) }
        ensures { self.new ≡ self.old ++ decimal n }
    {
        if n < 10 {
            self.put_byte(b'0' + n as u8);
        } else {
            self.put_number(n / 10);
            self.put_byte(b'0' + (n % 10) as u8);
        }
    }

    // A number in decimal, and a byte behind it.
    pub fn put_marked(&mut self, n: u64, mark: u8)
        requires { OnPage (self.old ++ decimal n ++ (mark ∷ [])) }
        ensures { self.new ≡ self.old ++ decimal n ++ (mark ∷ []) }
    {
        self.put_number(n);
        self.put_byte(mark);
    }
}
