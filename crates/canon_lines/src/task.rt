//! What the arguments ask for, and the exit status.
ghost use Rattle.std.specs.Prelude.{◌≡◌, ◌↔◌, ◌<◌, ℕ, List, [], ◌∷◌, length, map, codes, string_bytes};
ghost use Rattle.canon_lines.specs.Status.{status_in};

use crate::lines::RunFault;

/// The status of a run that ended early.
pub const FAULT: u8 = 2;

/// What the arguments ask for.
#[derive(Clone, Copy)]
pub enum Task {
    Run,
    Check,
    /// They aren't known.
    Usage,
}

/// Returns what the arguments ask for. The first is the program's name.
pub fn task_of(arguments: &[String]) -> Task
    ensures run { (result ≡ Task.Run) ↔ (length arguments.now < 2) }
    ensures check { (result ≡ Task.Check) ↔ ((name : List ℕ) × (map (λ a. string_bytes a) arguments.now ≡ name ∷ codes "--check" ∷ [])) }
{
    match arguments {
        [] | [_] => Task::Run,
        [_, only] if only.as_str() == "--check" => Task::Check,
        _ => Task::Usage,
    }
}

/// Returns the exit status: 0 if nothing was refused, 1 if something was, and 2 if the run ended early.
pub fn status_of(answer: &Result<bool, RunFault>) -> u8
    ensures { result ≡ status_in answer.now }
{
    match answer {
        Ok(true) => 0,
        Ok(false) => 1,
        Err(_) => FAULT,
    }
}
