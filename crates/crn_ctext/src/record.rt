ghost use Rattle.std.specs.Prelude.{◌≡◌, ◌≤◌, ◌+◌, [], length, IfOk, IfErr};
ghost use Rattle.crn_io.specs.declared.lines.TheConstants.{MAX_NUMBERS};
ghost use Rattle.crn_ctext.specs.Records.{BeginsWith};
ghost use Rattle.crn_ctext.specs.Expect.{IsExpectable, IsReadAs, IsRefusedBy, code_of, forms_of};
ghost use Rattle.crn_ctext.specs.Inner.Tries.{AreTried};

use crate::expect::{Due, Expect};
use crate::fault::DocCode;
use crate::kinds::is_known;
use crate::record_try::{Tried, seek};
use crate::word::Word;
use crn_vec::Ints;

// The bytes before the first space.
pub(crate) fn first_word(line: &[u8]) -> &[u8]
    ensures { BeginsWith line.now result.now }
{
    for (i, byte) in line.iter().enumerate() {
        if *byte == b' ' {
            let (word, _) = line.split_at(i);
            return word;
        }
    }
    line
}

// Why a line is refused that has the word of no form that is due.
fn other_word(expect: &Expect, line: &[u8]) -> DocCode
    requires due { IsExpectable expect.now }
    requires tried { AreTried Tried.OtherWord (forms_of expect.now) line.now }
    ensures { IsRefusedBy expect.now line.now (code_of result) }
{
    let word = first_word(line);
    if !is_known(word, expect.version, false) {
        return DocCode::UnknownWord;
    }
    if let Due::Node { .. } = expect.due {
        return DocCode::TreeEndsEarly;
    }
    if expect.after_tree {
        if is_known(word, expect.version, true) {
            return DocCode::TreeGoesOn;
        }
    }
    DocCode::WrongOrder
}

/// Reads one line, without its LF, against what is due. It takes no memory.
///
/// Its numbers are put into the list, those of a head after the place of its form, from 1.
pub fn read_record(expect: &Expect, line: &[u8], into: &mut Ints) -> Result<Word, DocCode>
    requires due { IsExpectable expect.now }
    requires empty { into.old.list ≡ [] }
    requires room { MAX_NUMBERS ≤ into.old.spare }
    ensures ok { IfOk result (λ word. IsReadAs expect.now line.now word into.new.list) }
    ensures spare { into.new.spare + length into.new.list ≡ into.old.spare }
    ensures err { IfErr result
        (λ code. IsRefusedBy expect.now line.now (code_of code) × (into.new ≡ into.old)) }
{
    match seek(expect, line, into) {
        Ok(word) => Ok(word),
        Err(Tried::OtherWord) => Err(other_word(expect, line)),
        Err(Tried::Misfit) => Err(DocCode::BadField),
        Err(Tried::TooWide) => Err(DocCode::NumberWide),
        Err(Tried::Fits) => unreachable!(),
    }
}
