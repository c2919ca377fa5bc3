// The text that lists a plan: document 01, the program `busplan`. An accepted plan's text has a line for each node and for each of the first eight
// slots; a refused plan's text is one line. specs/Text.antt says it byte by byte.
#![tactic(auto)]

ghost use Rattle.std.specs.Prelude.{◌≡◌, ◌≤◌, length, IfOk};
ghost use Rattle.answers.specs.Answers.{number_of, place_in, spot};
ghost use Rattle.listing.specs.Text.{refused_text, text, said, listed, out_after};

mod accepted;
mod nodes;
mod page;
mod slots;

use accepted::Accepted;
use answers::Refusal;
use page::Page;

// There is too little room for the text.
#[derive(Clone, Copy, Debug, PartialEq, Eq)]
pub struct Short;

// Writes the text of a plan to the front of `out`, where there is room for it, and answers its length: `said` of specs/Text.antt.
#[tactic(auto, using(crate::proofs::Texts::by_room))]
pub fn list(bytes: &[u8], out: &mut [u8]) -> Result<usize, Short>
    ensures answer { said result ≡ listed bytes.now (length out.old) }
    ensures buffer { out.new ≡ out_after bytes.now out.old }
    ensures within { IfOk result (λ n. n ≤ length out.new) }
{
    let page = page_of(bytes);
    let text = page.written();
    let n = text.len();
    if out.len() < n {
        return Err(Short);
    }
    out[..n].copy_from_slice(text);
    Ok(n)
}

// The whole text, which always fits on a page.
fn page_of(bytes: &[u8]) -> Page
    ensures { result ≡ text bytes.now }
{
    match reader::read(bytes) {
        Ok(plan) => Accepted { plan }.page(bytes),
        Err(refusal) => refused(refusal),
    }
}

// Number and place of a refusal; where it has none, the number that stands for that.
#[tactic(auto, using(crate::proofs::Pages::joined, crate::proofs::Sizes::decimal_most), unfolding(crate::specs::Text::refused_text))]
fn refused(refusal: Refusal) -> Page
    ensures { result ≡ refused_text (number_of refusal) (spot (place_in refusal)) }
{
    let mut page = Page::blank();
    page.put(b"refused ");
    page.put_marked(refusal.number() as u64, b' ');
    page.put_marked(refusal.place().unwrap_or(usize::MAX) as u64, b'\n');
    page
}
