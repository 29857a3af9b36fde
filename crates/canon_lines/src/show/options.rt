//! What the arguments ask for.
ghost use Rattle.std.specs.Prelude.{◌≡◌, List, ℕ, map, drop, string_bytes, IfSome};
ghost use Rattle.canon_lines.specs.Options.{Asks};

use crate::show::Form;

/// What the arguments ask for.
#[derive(Clone, Copy)]
pub struct Options {
    /// The input is lines of hex.
    pub hex: bool,
    pub form: Form,
}

/// Returns what the arguments ask for, or `None` where they aren't known. The first is the program's name.
pub fn options_of(arguments: &[String]) -> Option<Options>
    ensures some { IfSome result (λ o. Asks (drop 1 (map (λ a. string_bytes a) arguments.now)) o.hex o.form) }
{
    let (hex, form) = match arguments {
        [] | [_] => (false, Form::Line),
        [_, one] if one.as_str() == "--hex" => (true, Form::Line),
        [_, one] if one.as_str() == "--pretty" => (false, Form::Indented),
        [_, one, two] if one.as_str() == "--hex" && two.as_str() == "--pretty" => (
            true,
            Form::Indented,
        ),
        [_, one, two] if one.as_str() == "--pretty" && two.as_str() == "--hex" => (
            true,
            Form::Indented,
        ),
        _ => return None,
    };
    Some(Options { hex, form })
}
