ghost use Rattle.std.specs.Prelude.{◌≡◌, ◌≤◌, ◌++◌, IfOk, OnOk, string_bytes};
ghost use Rattle.crn_text.specs.Spells.{Spells};
ghost use Rattle.crn_sample.specs.Sample.{sample_text, step_text};
ghost use Rattle.crn_sample.specs.declared.limits.TheConstants.{MAX_SAMPLE};

use crn_net::Network;
use crn_text::{TextCode, read};
use crn_vec::NoMemory;
use std::alloc::Global;
use std::fmt::Write;

// The two lines of a step.
fn push_step(text: &mut String, step: u32) -> Result<(), NoMemory>
    requires { 1 ≤ step }
    ensures { OnOk result
        (string_bytes text.new ≡ string_bytes text.old ++ step_text step) }
{
    let before = step - 1;
    write!(text, "E + S{before} <-> C{step}\nC{step} -> E + S{step}\n")
}

// The text of the sample of this number.
fn text_of(alloc: Global, number: u32) -> Result<String, NoMemory>
    ensures { IfOk result (λ text. string_bytes text ≡ sample_text number) }
{
    let mut text = String::new(alloc);
    for before in 0..number {
        push_step(&mut text, before + 1)?;
    }
    Ok(text)
}

/// The network of this many steps. Takes memory for it and for its text.
///
/// In step i, counted from 1, the enzyme E binds S(i-1) to C(i), which gives E and S(i): its lines are
/// `E + S(i-1) <-> C(i)` and `C(i) -> E + S(i)`.
pub fn sample(alloc: Global, number: u32) -> Result<Network, NoMemory>
    requires least { 1 ≤ number }
    requires most { number ≤ MAX_SAMPLE }
    ensures { IfOk result (λ net. Spells (sample_text number) net) }
{
    let text = text_of(alloc, number)?;
    match read(alloc, text.as_bytes()) {
        Ok(net) => Ok(net),
        // The text has no fault, as `sample_texts_spell_networks` says.
        Err(fault) => match fault.code {
            TextCode::NoMemory => Err(NoMemory),
            _ => unreachable!(),
        },
    }
}
