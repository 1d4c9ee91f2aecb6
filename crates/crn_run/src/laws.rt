ghost use Rattle.std.specs.Prelude.{◌≡◌, ◌<◌, ℕ, List, length};
ghost use Rattle.crn_io.specs.declared.lines.TheConstants.{MAX_DOCUMENT};
ghost use Rattle.crn_run.specs.Run.{Devices, IsAllowed, IsQuiet, IsRefusalOf, IsRejectionOf, RunGives};
ghost use Rattle.crn_run.specs.Words.{IsCommand, SayACommand};
ghost use Rattle.crn_run.specs.declared.words.Command.{Command};
ghost use Rattle.crn_run.specs.declared.words.Command.TheVariants.{Check, Verify};
ghost use Rattle.crn_run.specs.declared.words.PartName.{PartName};
ghost use Rattle.crn_run.specs.declared.status.Status.{Status};
ghost use Rattle.crn_run.specs.declared.status.Status.TheVariants.{ReadFault, WriteFault};

/// The words of a command line say at most one command.
pub fn words_say_one_command()
    ensures { (words : List (List ℕ)) (c other : Command) →
        IsCommand words c → IsCommand words other → c ≡ other }
{}

/// What may be written is one text if the words say no command, for a text that is refused or rejected, and
/// for each document that is checked or verified.
pub fn what_may_be_written_is_one_text()
    ensures usage { (words : List (List ℕ)) (text out other : List ℕ) →
        (SayACommand words → ⊥) → IsAllowed words text out → IsAllowed words text other →
        out ≡ other }
    ensures refused { (text out other : List ℕ) →
        IsRefusalOf text out → IsRefusalOf text other → out ≡ other }
    ensures rejected { (text out other : List ℕ) →
        IsRejectionOf text out → IsRejectionOf text other → out ≡ other }
    ensures checked { (words : List (List ℕ)) (text out other : List ℕ) →
        IsCommand words Check → IsAllowed words text out → IsAllowed words text other →
        out ≡ other }
    ensures verified { (words : List (List ℕ)) (part : PartName) (text out other : List ℕ) →
        IsCommand words (Verify part) → IsAllowed words text out → IsAllowed words text other →
        out ≡ other }
{}

/// Each text that may be written is shorter than a document may be, so a sink with that room has room for each.
pub fn what_may_be_written_is_short()
    ensures { (words : List (List ℕ)) (text out : List ℕ) →
        IsAllowed words text out → length out < MAX_DOCUMENT }
{}

/// Over a source that never fails and a sink with room for each text that may be written, a run meets no fault.
pub fn quiet_devices_meet_no_fault()
    ensures { (status : Status) (words : List (List ℕ)) (old new : Devices) (text : List ℕ) →
        RunGives status words old new → IsQuiet words old new text →
        (status ≡ ReadFault → ⊥) × (status ≡ WriteFault → ⊥)
        × (new.sink.faults ≡ old.sink.faults) }
{}
