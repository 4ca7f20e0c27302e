//! Makes the text of a shrunk run.

ghost use Rattle.std.specs.Prelude.{◌≡◌, ◌++◌, IfOk, OnOk};
ghost use Rattle.std.specs.String.{string_bytes};
ghost use Rattle.shrinkings.specs.Texts.{shrunk_text, stopped_text};

use crate::shrunk_run::ShrunkRun;
use exploration_text::failing_line;
use std::alloc::{AllocError, Global};

/// Appends the line `stopped`, unless no single departure can be left out.
fn push_stopped(text: &mut String, is_least: bool) -> Result<(), AllocError>
    ensures { OnOk result (string_bytes text.new ≡ string_bytes text.old ++ stopped_text is_least) }
{
    if is_least {
        return Ok(());
    }
    text.push_str("stopped\n")?;
    Ok(())
}

/// Returns the text of a shrunk run: its line, and `stopped` if single departures may be left out.
pub fn shrunk_text(alloc: Global, shrunk: &ShrunkRun) -> Result<String, AllocError>
    ensures { IfOk result (λ text. string_bytes text ≡ shrunk_text shrunk.now) }
{
    let mut text = failing_line(alloc, &shrunk.run)?;
    push_stopped(&mut text, shrunk.is_least)?;
    Ok(text)
}
