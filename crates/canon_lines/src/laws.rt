//! The laws of what is printed, over the definitions alone. Each is the contract of a function that does
//! nothing.

ghost use Rattle.std.specs.Prelude.{◌≡◌, ◌≢◌, ℕ, Bool, List, Option, Some};
ghost use Rattle.std.specs.Option.{is_none};
ghost use Rattle.rmp_decode.specs.Refuse.{Refusal};
ghost use Rattle.rmp_decode.specs.declared.error.Error.{Error};
ghost use Rattle.rmp_decode.specs.declared.error.Error.TheVariants as errors;
ghost use Rattle.rmp_serde.specs.Read.{ItemsUtf8};
ghost use Rattle.rmp_serde.specs.Refuse.{UnreadFor};
ghost use Rattle.rmp_serde.specs.Places.{IsWhole, IsFault, Stops};
ghost use Rattle.canon_lines.specs.Checks.{StopsAt, PrintsChecks};
ghost use Rattle.canon_lines.specs.Lines.{lines_in};
ghost use Rattle.canon_lines.specs.Messages.{error_name, refused_text};
ghost use Rattle.canon_lines.specs.Prints.{line, RefusesAt, PrintsMessages, PrintsAll};
ghost use Rattle.canon_lines.specs.Shows.{Shows};
ghost use Rattle.canon_lines.specs.declared.show.Form.{Form};
ghost use Rattle.canon_lines.specs.declared.show.refused.Refused.{Refused};

/// The bytes at which a message is refused determine the name of the error, unless out of memory. Only one
/// thing is the first that is wrong there, and one name says so, for a strict read and a lenient one.
pub fn one_refusal()
    ensures { (strict : Bool) (room : ℕ) (bytes : List ℕ) (e f : Error) → e ≢ errors.OutOfMemory → f ≢ errors.OutOfMemory
        → Refusal strict (UnreadFor strict) ItemsUtf8 room e bytes → Refusal strict (UnreadFor strict) ItemsUtf8 room f bytes
        → error_name e ≡ error_name f }
{}

/// The input determines the whole output of `run` and its result: a line is hex or isn't, its bytes split into
/// messages in one way, and each has one text. What follows them is nothing, or is refused under one name.
pub fn one_output()
    ensures { (input out other : List ℕ) (accepted answer : Bool) → PrintsAll PrintsMessages (lines_in input) out accepted
        → PrintsAll PrintsMessages (lines_in input) other answer → (out ≡ other) × (accepted ≡ answer) }
{}

/// If the checker refuses bytes, they determine the name of the error. Then no message is whole there, and no
/// head is at fault.
pub fn one_stop()
    ensures name { (bytes : List ℕ) (e f : Error) → e ≢ errors.OutOfMemory → f ≢ errors.OutOfMemory
        → Stops bytes e → Stops bytes f → error_name e ≡ error_name f }
    ensures no_whole { (bytes : List ℕ) (n : ℕ) (e : Error) → IsWhole bytes n → Stops bytes e → ⊥ }
    ensures no_fault { (bytes : List ℕ) (p : ℕ) (e : Error) → IsFault bytes p → Stops bytes e → ⊥ }
{}

/// The input determines the whole output of `check` and its result: canonical messages follow one another in
/// one way. What follows them is nothing, or is at fault at one offset, or is refused under one name.
pub fn one_check()
    ensures { (input out other : List ℕ) (accepted answer : Bool) → PrintsAll PrintsChecks (lines_in input) out accepted
        → PrintsAll PrintsChecks (lines_in input) other answer → (out ≡ other) × (accepted ≡ answer) }
{}

/// No refusal says that memory ran out.
pub fn no_refusal_for_memory()
    ensures run { (place : ℕ) (rest : List ℕ) → RefusesAt place rest (line (refused_text place errors.OutOfMemory)) → ⊥ }
    ensures check { (place : ℕ) (rest : List ℕ) → StopsAt place rest (line (refused_text place errors.OutOfMemory)) → ⊥ }
{}

/// The input determines what `show` prints of it, whether a message is refused, and the number of that one: the bytes that are looked at
/// before a refusal show that no message which can be read begins there, whatever follows them.
pub fn one_showing()
    ensures output { (form : Form) (input out other : List ℕ) (r s : Option Refused) → Shows form input out r → Shows form input other s
        → (out ≡ other) × (is_none r ≡ is_none s) }
    ensures number { (form : Form) (input out other : List ℕ) (r s : Refused) → Shows form input out (Some r) → Shows form input other (Some s)
        → r.number ≡ s.number }
{}
