ghost use Rattle.std.specs.Prelude.{◌≡◌, ℕ, ◌+◌, Bool, length};
ghost use Rattle.script.specs.Text.{blank, IsCutAtFirst};

// A space, a tabulator or a carriage return stands between words.
pub(crate) fn is_blank(octet: u8) -> bool
    ensures { result ≡ blank octet }
{
    matches!(octet, b' ' | b'\t' | b'\r')
}

// The text before the first octet that passes, and the text from that octet on; all of it and nothing where none does.
pub(crate) fn cut_at_first<F: Fn(u8) -> bool>(text: &[u8], passes: F) -> (&[u8], &[u8])
    requires { F.IsAlwaysCallable passes }
    ensures cut { (p : ℕ → Bool) → ((o : ℕ) (b : Bool) → F.post passes o b → b ≡ p o) → IsCutAtFirst p text.now result.0.now result.1.now }
    ensures whole { length result.0.now + length result.1.now ≡ length text.now }
{
    let length = text
        .iter()
        .position(|octet| passes(*octet))
        .unwrap_or(text.len());
    text.split_at(length)
}
