ghost use Rattle.std.specs.Prelude.{◌≡◌};
ghost use Rattle.std.specs.Option.{option_map};
ghost use Rattle.program_start.specs.Asked.{asked_by};

use std::env::{self, Env};

/// The variable that says whether the reasons of statuses are told.
const VARIABLE: &str = "QUOTA_CLI_REASONS";

/// Whether the reasons of statuses are told: `QUOTA_CLI_REASONS=always` and `QUOTA_CLI_REASONS=never` say so, and else
/// it is asked for where the error output is a terminal.
pub fn are_reasons_asked<R: Env + AllocGlobal>(rt: &R, is_terminal: bool) -> bool {
    match env::var(rt, VARIABLE) {
        Ok(value) => said_by(Some(value.as_str()), is_terminal),
        Err(_) => said_by(None, is_terminal),
    }
}

/// Whether reasons are told by what the variable is, where it is set.
fn said_by(value: Option<&str>, is_terminal: bool) -> bool
    ensures { result ≡ asked_by (option_map (λ value. value.now) value.entry) is_terminal }
{
    match value {
        Some("always") => true,
        Some("never") => false,
        _ => is_terminal,
    }
}
