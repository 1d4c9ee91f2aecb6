ghost use Rattle.std.specs.Prelude.{◌≡◌, IfOk, MatchOption, map, string_bytes};
ghost use Rattle.std.specs.Str.{IsUtf8};
ghost use Rattle.crn_page.specs.Page.{words_of};

use crn_io::NoMemory;
use std::alloc::Global;

// The words of a command line, or none if it is not UTF-8.
pub(crate) fn words_in(alloc: Global, line: &[u8]) -> Result<Option<Vec<String>>, NoMemory>
    ensures { IfOk result (λ found. MatchOption found (IsUtf8 line.now → ⊥)
        (λ words. map string_bytes words.items ≡ words_of line.now)) }
{
    match std::str::from_utf8(line) {
        Ok(line) => Ok(Some(separated(alloc, line)?)),
        Err(_) => Ok(None),
    }
}

// The words of a line that is UTF-8.
fn separated(alloc: Global, line: &str) -> Result<Vec<String>, NoMemory>
    ensures { IfOk result (λ words. map string_bytes words.items ≡ words_of line.now) }
{
    let parts: Vec<&str> = line.split('\0').collect(alloc)?;
    let mut words = Vec::new(alloc);
    for part in &parts {
        words.push(part.to_string(alloc)?)?;
    }
    Ok(words)
}
