// Texts in columns: where one ends, and the stretch it takes.
ghost use Rattle.std.specs.Prelude.{◌≡◌, ◌≤◌, length};
ghost use Rattle.value_text.specs.text.Texts.{text_end, text_of, leading_blank};

use format_layout::BLANK;

// The columns that a text takes, trailing blanks not counted.
pub fn text_end(s: &[u8]) -> usize
    ensures found { result ≡ text_end s.now }
    ensures within { result ≤ length s.now }
{
    s.len() - s.iter().rev().take_while(|b| **b == BLANK).count()
}

// The text itself, as the caller's own memory.
#[tactic(auto, unfolding(crate::specs::text::Texts::text_of))]
pub fn stretch(s: &[u8]) -> &[u8]
    ensures { result.now ≡ text_of s.now }
{
    &s[..text_end(s)]
}

// Whether a text begins with a blank.
#[tactic(auto, using(crate::proofs::text::Ends::blank_none, crate::proofs::text::Ends::blank_some))]
pub fn begins_blank(s: &[u8]) -> bool
    ensures { result ≡ leading_blank s.now }
{
    matches!(s, [BLANK, ..])
}
