//! A key that is looked up in a map.
ghost use Rattle.std.specs.Prelude.{◌≡◌, ◌↔◌, ◌∷◌, [], IsTrue, MatchOption};
ghost use Rattle.rmp_serde.specs.Found.{unescaped};
ghost use Rattle.rmp_serde.specs.Keys.{key_text};

/// A key that is looked up in a map.
#[derive(Clone, Copy)]
pub(super) enum Key<'k> {
    /// This text.
    Text(&'k str),
    /// The text that a token of a pointer means.
    Token(&'k str),
}

impl Key<'_> {
    /// Returns whether the key is this text.
    pub(super) fn is(self, text: &str) -> bool
        ensures same { IsTrue result ↔ (key_text self.entry ≡ text.now) }
    {
        match self {
            Key::Text(key) => key == text,
            Key::Token(token) => means(token.as_bytes(), text.as_bytes()),
        }
    }
}

// Whether a token means this text: "~1" means "/", and "~0" means "~".
fn means(token: &[u8], text: &[u8]) -> bool
    ensures same { IsTrue result ↔ (unescaped token.now ≡ text.now) }
{
    let mut rest = token;
    for byte in text {
        let Some((first, more)) = first_meant(rest) else {
            return false;
        };
        if first != *byte {
            return false;
        }
        rest = more;
    }
    rest.is_empty()
}

// The first byte that a token means, and what follows it in the token.
fn first_meant(token: &[u8]) -> Option<(u8, &[u8])>
    ensures first { MatchOption result (token.now ≡ []) (λ f. unescaped token.now ≡ f.0 ∷ unescaped f.1.now) }
{
    match token {
        [] => None,
        [b'~', b'1', rest @ ..] => Some((b'/', rest)),
        [b'~', b'0', rest @ ..] => Some((b'~', rest)),
        [byte, rest @ ..] => Some((*byte, rest)),
    }
}
