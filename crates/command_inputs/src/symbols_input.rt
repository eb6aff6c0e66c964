//! The symbols that places are named by.

ghost use Rattle.std.specs.Prelude.{◌≡◌, ◌⊎◌, Err, IfErr, IfOk, Ok};
ghost use Rattle.command_inputs.specs.declared.fault.Fault.TheVariants as Fault;
ghost use Rattle.command_inputs.specs.Symbols.{AreSymbols};

use crate::fault::Fault;
use crate::inputs::start_of;
use log_streams::Files;
use std::alloc::Global;
use symbols::{MOST_BYTES, Symbols};

/// The symbols of the file at a path, if one is given.
pub fn symbols_of<'a, W, F: Files>(
    alloc: Global,
    files: &mut F,
    path: Option<&'a str>,
) -> Result<Option<Symbols>, Fault<'a, W>>
    ensures symbols { IfOk result (λ symbols. AreSymbols {W = W} (F.content files.old) path.entry (Ok symbols)) }
    ensures fault { IfErr result (λ why. (why ≡ Fault.Memory) ⊎ AreSymbols (F.content files.old) path.entry (Err why)) }
    ensures kept { F.content files.new ≡ F.content files.old }
{
    let Some(path) = path else {
        return Ok(None);
    };
    let bytes = match start_of(files, path, Some(MOST_BYTES + 1)) {
        Ok(bytes) => bytes,
        Err(why) => return Err(why),
    };
    match Symbols::new(alloc, bytes) {
        Ok(symbols) => Ok(Some(symbols)),
        Err(why) => Err(Fault::of_symbols(path, why)),
    }
}
